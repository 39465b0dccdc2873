//! What fails: a read of the script, a write of what comes out, and the first disk.
use crate::configs::PROFILE;
use crate::in_memory::{Ended, Failing};
use crate::runs::{NEVER, Step, failing, pair, pairs_behind, run};
use lease_disk::{LeaseDisk, MemoryDisk};
use pcp_base::Memory;
use pcp_server::Status;
use std::alloc::Global;

/// A request at 1010.
pub(crate) static REQUEST: Step = Step {
    words: "play c s j 1000",
    config: PROFILE,
    script: "packet 1010 10.0.0.5 40000 0201000000000e1000000000000000000000ffff0a000005\
        000102030405060708090a0b110000001388000000000000000000000000ffff00000000\n",
    status: Status::Done,
    output: "reply 10.0.0.5 40000 0281000000000e100000000a000000000000000000000000\
        000102030405060708090a0b110000001388040000000000000000000000ffffc0000201\n",
};

/// What fails: the read and the write of this number, the device call of this number on side a of
/// the first journal, what passes its room; how the play ends, and whether the reply is written.
struct Fault {
    read: u64,
    write: u64,
    call: u64,
    room: u64,
    status: Status,
    replied: bool,
}

// The first device call is a sync. A start has 59 octets, and with the lease 125.
static FAULTS: [Fault; 8] = [
    Fault {
        read: 0,
        write: NEVER,
        call: NEVER,
        room: 4_096,
        status: Status::ReadFault,
        replied: false,
    },
    Fault {
        read: 1,
        write: NEVER,
        call: NEVER,
        room: 4_096,
        status: Status::ReadFault,
        replied: true,
    },
    Fault {
        read: NEVER,
        write: 0,
        call: NEVER,
        room: 4_096,
        status: Status::WriteFault,
        replied: false,
    },
    Fault {
        read: NEVER,
        write: NEVER,
        call: 0,
        room: 4_096,
        status: Status::DiskFault(0),
        replied: false,
    },
    Fault {
        read: NEVER,
        write: NEVER,
        call: NEVER,
        room: 28,
        status: Status::DiskFault(0),
        replied: false,
    },
    Fault {
        read: NEVER,
        write: NEVER,
        call: NEVER,
        room: 40,
        status: Status::DiskFault(0),
        replied: false,
    },
    Fault {
        read: NEVER,
        write: NEVER,
        call: NEVER,
        room: 70,
        status: Status::DiskFault(0),
        replied: false,
    },
    Fault {
        read: NEVER,
        write: NEVER,
        call: NEVER,
        room: 4_096,
        status: Status::Done,
        replied: true,
    },
];

fn run_failing(alloc: Global, fault: &Fault) -> Result<Ended<MemoryDisk>, Memory> {
    let a = failing(alloc, MemoryDisk::new(alloc, fault.room), fault.call);
    let sides = pair(a, MemoryDisk::new(alloc, 4_096));
    let faults = Failing {
        read: fault.read,
        write: fault.write,
    };
    run(alloc, &REQUEST, pairs_behind(alloc, sides), faults)
}

// Whether the play ended so; what is told else, with its length, if anything.
fn other<D: LeaseDisk + Drop>(
    ended: Result<Ended<D>, Memory>,
    fault: &Fault,
) -> Result<Option<(Status, usize)>, Memory> {
    let ended = ended?;
    let told = ended.out.held();
    let wanted = if fault.replied {
        REQUEST.output.as_bytes()
    } else {
        b"".as_slice()
    };
    if ended.status == fault.status && told == wanted {
        return Ok(None);
    }
    Ok(Some((ended.status, told.len())))
}

#[test]
fn faults(rt: HostRuntime) -> Result<(), Memory> {
    for (i, fault) in FAULTS.iter().enumerate() {
        let other = other(run_failing(rt.alloc(), fault), fault)?;
        assert!(rt; other.is_none(), "{i}: {other:?}");
    }
    Ok(())
}
