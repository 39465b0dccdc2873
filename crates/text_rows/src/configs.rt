//! What texts of configurations stand for, as their callers see it. Which texts are refused, and what
//! a person is told of them, is said by rows of whole commands.
use pcp_base::{Address, Config, External, Orders, Prefix, Subscriber};
use pcp_config::{ConfigRefused, explain, read_config};
use std::alloc::{AllocError, Global};
use std::test::Fail;

const EXTERNAL: &[u8] = b"
[[external]]
address = \"192.0.2.1\"
low = 1024
high = 65535
";

// What stands before the table of an external address, and the quota and both lifetimes that are
// read then.
static VALUES: [(&[u8], (u32, u32, u32)); 8] = [
    (b"", (64, 120, 86_400)),
    (b"\"quota\" = 7", (7, 120, 86_400)),
    (b"quota = 1", (1, 120, 86_400)),
    (b"quota = 65535", (65_535, 120, 86_400)),
    (b"lifetime_min = 1", (64, 1, 86_400)),
    (b"lifetime_min = 86400", (64, 86_400, 86_400)),
    (b"lifetime_max = 120", (64, 120, 120)),
    (b"lifetime_max = 1\nlifetime_min = 1", (64, 1, 1)),
];

// What stands before that table and behind it, where the quota and both lifetimes stay the usual ones.
static USUAL: [(&[u8], &[u8]); 18] = [
    (b"# quota = 0", b""),
    (b"lifetime_max = 86400", b""),
    (b"third_party = []", b""),
    (b"third_party = [\"10.0.0.0/8\", \"10.0.0.0/8\"]", b""),
    (
        b"third_party = [\"20010db8000000000000000000000000/128\"]",
        b"",
    ),
    (b"third_party = [\"10.0.0.0/0\", \"10.0.0.0/32\"]", b""),
    (
        b"third_party = [\"20010db8000000000000000000000000/0\"]",
        b"",
    ),
    (
        b"",
        b"[[external]]\naddress = \"192.0.2.2\"\nlow = 1\nhigh = 1",
    ),
    (
        b"",
        b"[[external]]\nhigh = 65535\nlow = 65535\naddress = \"192.0.2.2\"",
    ),
    (
        b"",
        b"[[external]]\naddress = \"20010db8000000000000000000000001\"\nlow = 1\nhigh = 2",
    ),
    (b"subscriber = []", b""),
    (
        b"quota = 64\nlifetime_min = 120\nlifetime_max = 86400\nthird_party = []",
        b"",
    ),
    (
        b"",
        b"[[subscriber]]\nprefix = \"10.0.0.0/8\"\nexternal = \"192.0.2.1\"",
    ),
    (
        b"",
        b"[[subscriber]]\nexternal = \"00000000000000000000FFFFC0000201\"\nprefix = \"10.0.0.0/0\"",
    ),
    (
        b"",
        b"[[subscriber]]\nprefix = \"10.0.0.0/8\"\nexternal = \"192.0.2.1\"\n[[subscriber]]
prefix = \"10.0.0.0/8\"\nexternal = \"192.0.2.1\"",
    ),
    (
        b"",
        b"[[subscriber]]\nprefix = \"10.0.0.0/32\"\nexternal = \"192.0.2.1\"",
    ),
    (
        b"",
        b"[[subscriber]]\nprefix = \"20010db8000000000000000000000000/128\"\nexternal = \"192.0.2.1\"",
    ),
    (b"", b"# quota = 0"),
];

// An external address in the other form of a table.
const INLINE: &[u8] = b"external = [{address = \"192.0.2.1\", low = 1, high = 1}]";

fn values_of(config: &Config) -> (u32, u32, u32) {
    (config.quota, config.lifetime_min, config.lifetime_max)
}

fn values_in(alloc: Global, text: &[u8]) -> Option<(u32, u32, u32)> {
    match read_config(alloc, text) {
        Ok(config) => Some(values_of(&config)),
        Err(_) => None,
    }
}

// What is read where these texts stand before the table of an external address and behind it.
fn read_around(
    alloc: Global,
    before: &[u8],
    behind: &[u8],
) -> Result<Option<(u32, u32, u32)>, AllocError> {
    let mut whole = Vec::new(alloc);
    whole.extend_from_slice(before)?;
    whole.extend_from_slice(EXTERNAL)?;
    whole.extend_from_slice(behind)?;
    Ok(values_in(alloc, &whole))
}

#[test]
fn values_of_keys(rt: HostRuntime) -> Result<(), Fail> {
    let alloc = rt.alloc();
    for (text, want) in &VALUES {
        let found = read_around(alloc, text, b"")?;
        assert!(rt; found == Some(*want), "{}", text.escape_ascii());
    }
    for (before, behind) in &USUAL {
        let found = read_around(alloc, before, behind)?;
        assert!(rt;
            found == Some((64, 120, 86_400)),
            "{}{}",
            before.escape_ascii(),
            behind.escape_ascii()
        );
    }
    assert!(rt; values_in(alloc, INLINE) == Some((64, 120, 86_400)));
    Ok(())
}

// As many external addresses, prefixes and subscribers.
fn long_text(
    alloc: Global,
    externals: usize,
    prefixes: usize,
    subscribers: usize,
) -> Result<Vec<u8>, AllocError> {
    let mut text = Vec::new(alloc);
    text.extend_from_slice(b"third_party = [")?;
    for _ in 0..prefixes {
        text.extend_from_slice(b"\"10.0.0.0/8\",")?;
    }
    text.extend_from_slice(b"]\n")?;
    for index in 0..externals {
        let address = format!(in alloc; "address = \"192.0.2.{index}\"\n")?;
        text.extend_from_slice(b"[[external]]\n")?;
        text.extend_from_slice(address.as_bytes())?;
        text.extend_from_slice(b"low = 1\nhigh = 1\n")?;
    }
    for _ in 0..subscribers {
        text.extend_from_slice(b"[[subscriber]]\nprefix = \"10.0.0.0/8\"\n")?;
        text.extend_from_slice(b"external = \"192.0.2.0\"\n")?;
    }
    Ok(text)
}

#[test]
fn longest_lists(rt: HostRuntime) -> Result<(), Fail> {
    let text = long_text(rt.alloc(), 16, 256, 1_024)?;
    let Ok(config) = read_config(rt.alloc(), &text) else {
        return Err("refused".into());
    };
    assert!(rt; config.externals.items().len() == 16);
    assert!(rt; config.third_party.items().len() == 256);
    assert!(rt; config.subscribers.items().len() == 1_024);
    Ok(())
}

static EXAMPLE: &[u8] = b"quota = 64
lifetime_min = 120
lifetime_max = 86400
third_party = [\"10.0.0.1/32\"]
listen = [\"192.0.2.9\", \"fe80::1%lan0\", \"2001:db8::1\"]
orders = \"folder\"

[[external]]
address = \"192.0.2.1\"
low = 1024
high = 65535

[[external]]
address = \"192.0.2.2\"
low = 1
high = 2

[[subscriber]]
prefix = \"10.0.0.0/8\"
external = \"192.0.2.2\"
";

static HOSTS: [Prefix; 1] = [Prefix {
    bits: 128,
    address: Address([0, 0, 0, 0, 0, 0, 0, 0, 0, 0, 0xff, 0xff, 10, 0, 0, 1]),
}];

static BOTH: [External; 2] = [
    External {
        address: Address([0, 0, 0, 0, 0, 0, 0, 0, 0, 0, 0xff, 0xff, 192, 0, 2, 1]),
        low: 1024,
        high: 65_535,
    },
    External {
        address: Address([0, 0, 0, 0, 0, 0, 0, 0, 0, 0, 0xff, 0xff, 192, 0, 2, 2]),
        low: 1,
        high: 2,
    },
];

static ROWS: [Subscriber; 1] = [Subscriber {
    prefix: Prefix {
        bits: 104,
        address: Address([0, 0, 0, 0, 0, 0, 0, 0, 0, 0, 0xff, 0xff, 10, 0, 0, 0]),
    },
    external: 1,
}];

// Addresses at which a server listens, and the names of their links.
static DOORS: [(Address, &[u8]); 3] = [
    (
        Address([0, 0, 0, 0, 0, 0, 0, 0, 0, 0, 0xff, 0xff, 192, 0, 2, 9]),
        b"",
    ),
    (
        Address([0xfe, 0x80, 0, 0, 0, 0, 0, 0, 0, 0, 0, 0, 0, 0, 0, 1]),
        b"lan0",
    ),
    (
        Address([0x20, 0x01, 0x0d, 0xb8, 0, 0, 0, 0, 0, 0, 0, 0, 0, 0, 0, 1]),
        b"",
    ),
];

fn has_doors(config: &Config, doors: &[(Address, &[u8])]) -> bool {
    let listen = config.listen.items();
    listen.len() == doors.len()
        && listen.iter().zip(doors.iter()).all(|(entry, (address, link))| {
            entry.address == *address && entry.link.items() == *link
        })
}

// Whether the server listens there, and takes orders so.
fn listens(alloc: Global, text: &[u8], doors: &[(Address, &[u8])], orders: Orders) -> bool {
    match read_config(alloc, text) {
        Ok(config) => config.orders == orders && has_doors(&config, doors),
        Err(_) => false,
    }
}

#[test]
fn doors_and_orders(rt: HostRuntime) -> Result<(), Fail> {
    let alloc = rt.alloc();
    assert!(rt; listens(alloc, EXAMPLE, &DOORS, Orders::Folder));
    assert!(rt; listens(alloc, EXTERNAL, &[], Orders::Both));
    let mut loopback = b"orders = \"loopback\"".to_vec(alloc)?;
    loopback.extend_from_slice(EXTERNAL)?;
    assert!(rt; listens(alloc, &loopback, &[], Orders::Both));
    Ok(())
}

fn has_example_lists(config: &Config) -> bool {
    config.third_party.items() == HOSTS.as_slice()
        && config.externals.items() == BOTH.as_slice()
        && config.subscribers.items() == ROWS.as_slice()
}

#[test]
fn every_field(rt: HostRuntime) {
    let same = match read_config(rt.alloc(), EXAMPLE) {
        Ok(config) => values_of(&config) == (64, 120, 86_400) && has_example_lists(&config),
        Err(_) => false,
    };
    assert!(rt; same);
}

#[test]
fn a_refused_text(rt: HostRuntime) -> Result<(), Fail> {
    let refused = read_config(rt.alloc(), b"quota = 0").err();
    assert!(rt; refused == Some(ConfigRefused::NotConfig));
    let told = explain(rt.alloc(), b"quota = 0")?;
    let line = told.as_ref().map_or("", |line| line.as_str());
    assert!(rt; line == "quota: expected a whole number from 1 to 65535");
    assert!(rt; explain(rt.alloc(), EXAMPLE)?.is_none());
    Ok(())
}
