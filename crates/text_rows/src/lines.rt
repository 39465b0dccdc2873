//! What lines of scripts mean and put out, and that calls succeed with ample memory.
use pcp_base::{
    Address, Addresses, Config, Datagram, Endpoint, External, Externals, Memory, Octets, Orders,
    Owner, OwnerList, Prefixes, Protocol, Subscribers,
};
use pcp_script::{Line, LineRefused, LineResult, Load, read_line, write_result};
use std::alloc::{AllocError, Global};
use std::test::Fail;

// What a line stands for, without the octets of its datagram.
#[derive(Clone, Copy, PartialEq, Eq)]
enum Shown {
    Refused,
    Skip,
    // the moment, the peer, its port and how many octets came
    Packet(u64, Address, u16, usize),
    // the moment, the shard, the protocol, the port, the remote address and its port
    Look(u64, u32, Protocol, u16, Address, u16),
    Lose(u64, u32),
    Owners(u64, u32),
}

fn summary_of(line: &Result<Line, LineRefused>) -> Shown {
    match line {
        Err(_) => Shown::Refused,
        Ok(Line::Skip) => Shown::Skip,
        Ok(Line::Packet(moment, from)) => Shown::Packet(
            moment.get(),
            from.peer,
            from.port,
            from.octets.items().len(),
        ),
        Ok(
            Line::Look {
                moment,
                shard,
                protocol,
                port,
                remote,
                remote_port,
            },
        ) => Shown::Look(
            moment.get(),
            *shard,
            *protocol,
            *port,
            *remote,
            *remote_port,
        ),
        Ok(Line::Lose(moment, shard)) => Shown::Lose(moment.get(), *shard),
        Ok(Line::Owners(moment, shard)) => Shown::Owners(moment.get(), *shard),
    }
}

// What the text of a line stands for.
fn shown_of(alloc: Global, config: &Config, text: &[u8]) -> Shown {
    let line = read_line(alloc, config, text);
    summary_of(&line)
}

// 10.0.0.5
const HOST: Address = Address([0, 0, 0, 0, 0, 0, 0, 0, 0, 0, 0xff, 0xff, 10, 0, 0, 5]);

/// 192.0.2.1 and 2001:db8::1 are external.
pub(crate) fn config(alloc: Global) -> Result<Config, AllocError> {
    let externals = vec![in alloc;
        External {
            address: Address::v4(192, 0, 2, 1),
            low: 1024,
            high: 65535,
        },
        External {
            address: Address([0x20, 1, 0x0d, 0xb8, 0, 0, 0, 0, 0, 0, 0, 0, 0, 0, 0, 1]),
            low: 1024,
            high: 65535,
        },
    ]?;
    Ok(Config {
        quota: 64,
        lifetime_min: 120,
        lifetime_max: 86_400,
        third_party: Prefixes::of(Vec::new(alloc)),
        externals: Externals::of(externals),
        subscribers: Subscribers::of(Vec::new(alloc)),
        listen: Addresses::of(Vec::new(alloc)),
        orders: Orders::Both,
    })
}

// One line of each kind, and each with the greatest numbers; lines that are refused stand in rows of
// whole commands.
static CASES: [(&[u8], Shown); 10] = [
    (b"", Shown::Skip),
    (b"packet x", Shown::Refused),
    (b"packet 0 10.0.0.5 0 -", Shown::Packet(0, HOST, 0, 0)),
    (
        b"packet 1099511627775 00000000000000000000FFFF0A000005 65535 aBCd",
        Shown::Packet(1_099_511_627_775, HOST, 65_535, 2),
    ),
    (
        b"look 0 192.0.2.1 6 1 10.0.0.5 0",
        Shown::Look(0, 0, Protocol::Tcp, 1, HOST, 0),
    ),
    (
        b"look 1099511627775 20010DB8000000000000000000000001 17 65535 10.0.0.5 65535",
        Shown::Look(1_099_511_627_775, 1, Protocol::Udp, 65_535, HOST, 65_535),
    ),
    (b"lose 0 192.0.2.1", Shown::Lose(0, 0)),
    (
        b"lose 1099511627775 20010db8000000000000000000000001",
        Shown::Lose(1_099_511_627_775, 1),
    ),
    (
        b"owners 0 00000000000000000000ffffc0000201",
        Shown::Owners(0, 0),
    ),
    (
        b"owners 1099511627775 20010db8000000000000000000000001",
        Shown::Owners(1_099_511_627_775, 1),
    ),
];

#[test]
fn lines_of_a_script(rt: HostRuntime) -> Result<(), Fail> {
    let config = config(rt.alloc())?;
    for (text, want) in &CASES {
        let line = shown_of(rt.alloc(), &config, text);
        assert!(rt; line == *want, "{}", text.escape_ascii());
    }
    Ok(())
}

#[test]
fn longest_datagram(rt: HostRuntime) -> Result<(), Fail> {
    let config = config(rt.alloc())?;
    let mut text = b"packet 7 10.0.0.5 9 ".to_vec(rt.alloc())?;
    text.resize(4_116, b'0')?;
    let want = Shown::Packet(7, HOST, 9, 2_048);
    assert!(rt; shown_of(rt.alloc(), &config, &text) == want);
    Ok(())
}

// What a line is told, as a value that takes no memory.
#[derive(Clone, Copy)]
enum Told {
    // the peer, its port and the octets
    Reply(Address, u16, &'static [u8]),
    Lost(u32),
    // so many first ones of the owners below
    Owners(usize),
}

// UDP port 5000 of 10.0.0.5
const UDP: Endpoint = Endpoint {
    address: HOST,
    protocol: Protocol::Udp,
    port: 5000,
};

static OWNERS: [Owner; 2] = [
    Owner {
        protocol: Protocol::Tcp,
        external: 1024,
        endpoint: Endpoint {
            protocol: Protocol::Tcp,
            ..UDP
        },
    },
    Owner {
        protocol: Protocol::Udp,
        external: 65_535,
        endpoint: Endpoint { port: 1, ..UDP },
    },
];

fn result_of(alloc: Global, told: &Told) -> Result<LineResult, AllocError> {
    Ok(match told {
        Told::Reply(peer, port, octets) => {
            let octets = octets.to_vec(alloc)?;
            LineResult::Reply(Datagram {
                peer: *peer,
                port: *port,
                door: 0,
                octets: Octets::of(octets),
            })
        }
        Told::Lost(count) => LineResult::Lost(*count),
        Told::Owners(count) => {
            let count = OWNERS.len().min(*count);
            LineResult::Owners(OwnerList::of(OWNERS[..count].to_vec(alloc)?))
        }
    })
}

// What a line is told, and what that puts out; the other results stand in rows of whole commands.
static RESULTS: [(Told, &[u8]); 4] = [
    (
        Told::Reply(HOST, 40_000, b"\x02\x81\xff"),
        b"reply 10.0.0.5 40000 0281ff\n",
    ),
    (
        Told::Reply(
            Address([0x20, 1, 0x0d, 0xb8, 0, 0, 0, 0, 0, 0, 0, 0, 0, 0, 0, 1]),
            0,
            b"",
        ),
        b"reply 20010db8000000000000000000000001 0 -\n",
    ),
    (Told::Lost(4_294_967_295), b"lost 4294967295\n"),
    (
        Told::Owners(2),
        b"own 6 1024 10.0.0.5 5000\nown 17 65535 10.0.0.5 1\nowners 2\n",
    ),
];

fn put_out(alloc: Global, told: &Told) -> Result<Vec<u8>, Memory> {
    let result = result_of(alloc, told)?;
    // what was there stays in front
    let mut out = Vec::new(alloc);
    out.push(b'>')?;
    write_result(alloc, &mut out, &result)?;
    Ok(out)
}

#[test]
fn results_of_lines(rt: HostRuntime) -> Result<(), Fail> {
    for (told, want) in &RESULTS {
        let out = put_out(rt.alloc(), told)?;
        let same = out.first() == Some(&b'>') && out.get(1..) == Some(*want);
        assert!(rt; same, "{}", want.escape_ascii());
    }
    Ok(())
}

// Requests of number 7, of which the sixth has words of two blocks, with their hosts; the words are
// from a ChaCha8 of another hand, checked with the zero key's published key stream.
static REQUESTS: [(u8, u8, &[u8]); 6] = [
    (
        2,
        115,
        b"020100000000007800000000000000000000ffff0a0002730a0002730472000000000000060000000472000000000000000000000000000000000000",
    ),
    (
        0,
        2,
        b"020100000000007800000000000000000000ffff0a0000020a00000204ae0000000000001100000004ae000000000000000000000000000000000000",
    ),
    (
        1,
        192,
        b"020100000001518000000000000000000000ffff0a0001c00a0001c005a00000000000000600000005a0000000000000000000000000000000000000",
    ),
    (
        3,
        10,
        b"020100000001518000000000000000000000ffff0a00030a0a00030a049c00000000000006000000049c000000000000000000000000000000000000",
    ),
    (
        1,
        205,
        b"020100000000000000000000000000000000ffff0a0001cd0a0001cd052a00000000000006000000052a000000000000000000000000000000000000",
    ),
    (
        2,
        34,
        b"020100000000007800000000000000000000ffff0a0002220a000222054d00000000000006000000054d000000000000000000000000000000000000",
    ),
];

#[test]
fn requests_of_number_7(rt: HostRuntime) -> Result<(), Fail> {
    let mut load = Load::new(7);
    for (x, y, want) in &REQUESTS {
        let from = load.next(rt.alloc())?;
        assert!(rt; from.peer == Address::v4(10, 0, *x, *y));
        assert!(rt; from.port == 40_000 && from.door == 0);
        let digits = hex::encode(rt.alloc(), from.octets.items())?;
        assert!(rt; digits.as_bytes() == *want, "{digits}");
    }
    Ok(())
}
