//! What no clause says: that loads are played with ample memory, what their summaries say, and that
//! the premises of `play_load` are met.
ghost use Rattle.std.specs.Prelude.{◌≡◌, IfOk};
ghost use Rattle.load_player.specs.PlainLoads.{kind_by_protocol};

use crate::{LoadAnswerer, LoadReply, LoadStatus, play_load};
use load_summary::LoadKind;
use pcp_base::{Datagram, Memory, Moment, Octets};
use pcp_io::{Calls, MemorySink};
use script_player::AnswerFault;
use server_commands::LoadPlan;
use std::alloc::Global;
use std::test::Fail;

// The shard whose disk fails.
const SHARD: u32 = 3;

// No call has this number.
const NEVER: u64 = u64::MAX;

// Counts the requests, and sends each back. Calls may be named at which a disk fails, or at which no
// memory is found.
#[derive(Drop)]
struct Plain {
    count: u32,
    disk: Calls,
    starving: Calls,
}

impl LoadAnswerer for Plain {
    ghost use Rattle.std.specs.Prelude.{refl, ⊤};
    ghost use Rattle.std.proofs.Common.{inl};
    ghost use Rattle.script_player.specs.Logs.{both_ways, faults_at, leaves_both};
    ghost use Rattle.load_player.specs.PlainLoads.{plain_effects};

    type House = u32;

    ghost effects = { plain_effects };

    ghost house = { λ p. p.count };

    ghost rests = { λ _. ⊤ };

    ghost way = { leaves_both (λ p. p.count) };

    ghost faults = { λ p. faults_at 3 p.disk.faults };

    ghost ways = { both_ways (λ p. p.count) };

    ghost stays = { λ _ _. (inl refl, inl refl) };

    fn serve(
        &mut self,
        alloc: Global,
        request: &Datagram,
        _now: Moment,
    ) -> Result<LoadReply, AnswerFault> {
        if self.disk.begin() {
            let _failed = self.disk.fail();
            return Err(AnswerFault::Disk(SHARD));
        }
        if self.starving.begin() || self.count == u32::MAX {
            return Err(AnswerFault::Memory);
        }
        let reply = echo(alloc, request)?;
        self.count += 1;
        Ok(reply)
    }

    fn leases(&self, _m: Moment) -> u32 {
        self.count
    }

    fn owned(&self, _alloc: Global, _m: Moment) -> Result<u32, Memory> {
        Ok(self.count)
    }
}

// The same octets as a reply.
fn echo(alloc: Global, request: &Datagram) -> Result<LoadReply, Memory>
    ensures kind { IfOk result (λ told. told.kind ≡ kind_by_protocol request.now) }
    ensures octets { IfOk result (λ told. told.octets ≡ request.now.octets) }
{
    let octets = request.octets.items();
    let kind = match octets.get(36) {
        Some(17) => LoadKind::Granted,
        _ => LoadKind::Refused,
    };
    Ok(LoadReply {
        kind,
        octets: Octets::of(octets.to_vec(alloc)?),
    })
}

// Which calls fail, by their numbers, and how many octets the sink may hold.
#[derive(Clone, Copy, Debug)]
struct Failing {
    disk: u64,
    starving: u64,
    write: u64,
    room: u64,
}

const NONE: Failing = Failing {
    disk: NEVER,
    starving: NEVER,
    write: NEVER,
    room: 1_000,
};

// A load over: its status, how many requests were served, and what was written.
#[derive(Drop)]
struct Over {
    status: LoadStatus,
    served: u32,
    out: MemorySink,
}

fn plain_of(alloc: Global, failing: &Failing) -> Result<Plain, Memory> {
    let mut disk = Calls::new(alloc);
    disk.fail_at(failing.disk)?;
    let mut starving = Calls::new(alloc);
    starving.fail_at(failing.starving)?;
    Ok(Plain {
        count: 0,
        disk,
        starving,
    })
}

// Plays a load in memory.
fn played(alloc: Global, plan: LoadPlan, failing: &Failing) -> Result<Over, Memory> {
    let mut answerer = plain_of(alloc, failing)?;
    let mut out = MemorySink::new(alloc, failing.room)?;
    out.fail_at(alloc, failing.write)?;
    let status = play_load(alloc, plan, &mut answerer, &mut out);
    Ok(Over {
        status,
        served: answerer.count,
        out,
    })
}

// How many requests of which number, and their summary. The generator is ChaCha8, and the digests are
// SHA-256; both were computed apart, by another program.
static LOADS: [(u64, u32, &str); 3] = [
    (
        7,
        0,
        "requests 0\ngranted 0\nrenewed 0\ndeleted 0\nabsent 0\nrefused 0\nleases 0\nowned 0\n\
         digest e3b0c44298fc1c149afbf4c8996fb92427ae41e4649b934ca495991b7852b855\n",
    ),
    (
        7,
        3,
        "requests 3\ngranted 1\nrenewed 0\ndeleted 0\nabsent 0\nrefused 2\nleases 3\nowned 3\n\
         digest 1725f7514e2f652268ddf558e6883074a9f44fb12b036c712633f080258d1a2e\n",
    ),
    (
        8,
        3,
        "requests 3\ngranted 2\nrenewed 0\ndeleted 0\nabsent 0\nrefused 1\nleases 3\nowned 3\n\
         digest 0974548c4146f797f3438810cc2736976b9d25588c5362224bd10857bc05b0f9\n",
    ),
];

#[test]
fn loads_have_summaries(rt: HostRuntime) -> Result<(), Fail> {
    let start = Moment::of(1_000).ok_or("no moment")?;
    for (number, count, text) in &LOADS {
        let plan = LoadPlan {
            start,
            number: *number,
            count: *count,
        };
        let over = played(rt.alloc(), plan, &NONE)?;
        assert!(rt; over.status == LoadStatus::Done, "{count}");
        assert!(rt; over.out.held() == text.as_bytes(), "{count}");
    }
    Ok(())
}

// Calls that fail while three requests are served, the status, and how many were served.
static FAULTS: [(Failing, LoadStatus, u32); 6] = [
    (Failing { disk: 0, ..NONE }, LoadStatus::DiskFault(3), 0),
    (Failing { disk: 2, ..NONE }, LoadStatus::DiskFault(3), 2),
    (
        Failing {
            starving: 1,
            ..NONE
        },
        LoadStatus::Memory,
        1,
    ),
    (Failing { disk: 3, ..NONE }, LoadStatus::Done, 3),
    (Failing { write: 0, ..NONE }, LoadStatus::WriteFault, 3),
    (Failing { room: 20, ..NONE }, LoadStatus::WriteFault, 3),
];

#[test]
fn faults_end_loads(rt: HostRuntime) -> Result<(), Fail> {
    let start = Moment::of(1_000).ok_or("no moment")?;
    for (failing, status, served) in &FAULTS {
        let plan = LoadPlan {
            start,
            number: 7,
            count: 3,
        };
        let over = played(rt.alloc(), plan, failing)?;
        assert!(rt; over.status == *status, "{failing:?}");
        assert!(rt; over.served == *served, "{failing:?}");
        let written = over.status == LoadStatus::Done;
        assert!(rt; over.out.held().is_empty() != written, "{failing:?}");
    }
    Ok(())
}
