//! Words of the relays' commands, and their help.
use pcp_base::{Address, Memory};
use proxy_commands::{CascadeCommand, ProxyCommand, cascade_command_of, command_of};
use relay_words::{ProxyAsk, cascade_ask_of, help_of, key_file_of, proxy_ask_of};
use std::alloc::Global;
use std::test::Fail;

// Words with a space between each two, and whether they are a command.
static WORDS: [(&str, bool); 11] = [
    (
        "proxy --server 192.0.2.9 --own 10.0.0.2 --inner 10.0.0.1 --key 000102030405060708090a0b0c0d0e0f101112131415161718191a1b1c1d1e1f",
        true,
    ),
    (
        "proxy --key 000102030405060708090A0B0C0D0E0F101112131415161718191A1B1C1D1E1F --inner 10.0.0.1 --own 10.0.0.2 --server 192.0.2.9",
        true,
    ),
    // a digit less, and one that is none
    (
        "proxy --server 192.0.2.9 --own 10.0.0.2 --inner 10.0.0.1 --key 000102030405060708090a0b0c0d0e0f101112131415161718191a1b1c1d1e1",
        false,
    ),
    (
        "proxy --server 192.0.2.9 --own 10.0.0.2 --inner 10.0.0.1 --key 000102030405060708090a0b0c0d0e0f101112131415161718191a1b1c1d1e1g",
        false,
    ),
    (
        "proxy --server 192.0.2.9 --own 10.0.0.2 --key 000102030405060708090a0b0c0d0e0f101112131415161718191a1b1c1d1e1f",
        false,
    ),
    (
        "proxy --server 192.0.2.9 --own 10.0.0.2 --inner 10.0.0.1",
        false,
    ),
    (
        "proxy --server host --own 10.0.0.2 --inner 10.0.0.1 --key 000102030405060708090a0b0c0d0e0f101112131415161718191a1b1c1d1e1f",
        false,
    ),
    (
        "proxy --server 192.0.2.9 --server 192.0.2.9 --own 10.0.0.2 --inner 10.0.0.1 --key 000102030405060708090a0b0c0d0e0f101112131415161718191a1b1c1d1e1f",
        false,
    ),
    (
        "Proxy --server 192.0.2.9 --own 10.0.0.2 --inner 10.0.0.1 --key 000102030405060708090a0b0c0d0e0f101112131415161718191a1b1c1d1e1f",
        false,
    ),
    ("proxy --help", false),
    ("map --server 192.0.2.9 --own 10.0.0.2", false),
];

// The words of a text.
fn words_of(alloc: Global, text: &str) -> Result<Vec<String>, Memory> {
    let mut words = Vec::new(alloc);
    for word in text.split(' ') {
        words.push(String::from_str(alloc, word)?)?;
    }
    Ok(words)
}

fn read(alloc: Global, text: &str) -> Result<Option<ProxyCommand>, Memory> {
    command_of(alloc, &words_of(alloc, text)?)
}

#[test]
fn words_are_commands(rt: HostRuntime) -> Result<(), Fail> {
    for (text, is) in &WORDS {
        let Ok(found) = read(rt.alloc(), text) else {
            return Err("no memory".into());
        };
        assert!(rt; found.is_some() == *is, "{text}");
    }
    Ok(())
}

#[test]
fn options_are_read(rt: HostRuntime) -> Result<(), Fail> {
    let (text, _is) = WORDS[0];
    let command = read(rt.alloc(), text)?.ok_or("a command")?;
    assert!(rt; command.server == Address::v4(192, 0, 2, 9));
    assert!(rt; command.own == Address::v4(10, 0, 0, 2));
    assert!(rt; command.inner == Address::v4(10, 0, 0, 1));
    let [first, second, .., last] = command.key;
    assert!(rt; first == 0 && second == 1 && last == 31);
    Ok(())
}

// What a `cascade` says in front of its ports.
static CASCADE_FRONT: &str =
    "cascade --server 192.0.2.9 --own 10.0.0.2 --inner 10.0.0.1 --key 000102030405060708090a0b0c0d0e0f101112131415161718191a1b1c1d1e1f";

// Its ports, and whether it is a command with them.
static RANGES: [(&str, bool); 11] = [
    ("--low 20000 --high 29999", true),
    ("--high 65535 --low 1", true),
    ("--low 20000 --high 20000", true),
    ("--low 20001 --high 20000", false),
    ("--low 0 --high 20000", false),
    ("--low 1 --high 65536", false),
    ("--low 020 --high 20000", false),
    ("--low +20 --high 20000", false),
    ("--low 20", false),
    ("--high 20", false),
    ("--low 20 --high 30 --low 20", false),
];

fn read_range(alloc: Global, range: &str) -> Result<Option<CascadeCommand>, Memory> {
    let mut words = words_of(alloc, CASCADE_FRONT)?;
    for word in range.split(' ') {
        words.push(String::from_str(alloc, word)?)?;
    }
    cascade_command_of(alloc, &words)
}

#[test]
fn ranges_of_ports(rt: HostRuntime) -> Result<(), Fail> {
    for (range, is) in &RANGES {
        let Ok(found) = read_range(rt.alloc(), range) else {
            return Err("no memory".into());
        };
        assert!(rt; found.is_some() == *is, "{range}");
    }
    Ok(())
}

#[test]
fn cascade_options_are_read(rt: HostRuntime) -> Result<(), Fail> {
    let alloc = rt.alloc();
    let (range, _is) = RANGES[0];
    let command = read_range(alloc, range)?.ok_or("a command")?;
    assert!(rt; command.low == 20_000 && command.high == 29_999);
    assert!(rt; command.relay.own == Address::v4(10, 0, 0, 2));
    let (proxy, _is) = WORDS[0];
    assert!(rt; cascade_command_of(alloc, &words_of(alloc, proxy)?)?.is_none());
    Ok(())
}

// Whether the help for these words has this.
fn helps(alloc: Global, words: &str, part: &str) -> Result<bool, Memory> {
    match help_of(alloc, &words_of(alloc, words)?)? {
        Some(help) => Ok(help.as_str().contains(part)),
        None => Ok(false),
    }
}

#[test]
fn help_has_an_example(rt: HostRuntime) -> Result<(), Fail> {
    let alloc = rt.alloc();
    assert!(rt;
        helps(
            alloc,
            "proxy --help",
            "Example: pcp proxy --server 192.0.2.9"
        )?
    );
    assert!(rt;
        helps(
            alloc,
            "cascade --help",
            "Example: pcp cascade --server 192.0.2.9"
        )?
    );
    assert!(rt;
        helps(
            alloc,
            "proxy -h",
            "Usage: pcp proxy [OPTIONS] --server <ADDRESS>"
        )?
    );
    assert!(rt; helps(alloc, "cascade -h", "of all clients together")?);
    assert!(rt; help_of(alloc, &words_of(alloc, "proxy")?)?.is_none());
    Ok(())
}

// What a `proxy` says in front of its options.
static FRONT: &str = "proxy --server 192.0.2.9 --own 10.0.0.2 --inner 10.0.0.1";

static KEY: &str = "000102030405060708090a0b0c0d0e0f101112131415161718191a1b1c1d1e1f";

// Options of it, and whether it is a command with them and a file that has the key.
static OPTIONS: [(&str, bool); 14] = [
    ("--key-file FILE", true),
    ("--key-file FILE --key-file FILE", false),
    ("--key-file FILE --rate 1", true),
    ("--rate 100000 --key-file FILE", true),
    ("--rate 0 --key-file FILE", false),
    ("--rate 100001 --key-file FILE", false),
    ("--rate 020 --key-file FILE", false),
    ("--rate 1 --rate 1 --key-file FILE", false),
    (
        "--third-party 10.0.0.0/8 --third-party 2001:db8::/32 --key-file FILE",
        true,
    ),
    ("--third-party 10.0.0.0/33 --key-file FILE", false),
    ("--inner 10.0.1.1 --inner fe80::1 --key-file FILE", true),
    ("--inner host --key-file FILE", false),
    ("--rate 1", false),
    ("--key-file", false),
];

fn read_options(
    alloc: Global,
    options: &str,
    filed: Option<&str>,
) -> Result<Option<ProxyAsk>, Memory> {
    let mut words = words_of(alloc, FRONT)?;
    for word in options.split(' ') {
        words.push(String::from_str(alloc, word)?)?;
    }
    proxy_ask_of(alloc, &words, filed)
}

#[test]
fn options_among_the_words(rt: HostRuntime) -> Result<(), Fail> {
    let alloc = rt.alloc();
    for (options, is) in &OPTIONS {
        let found = read_options(alloc, options, Some(KEY))?;
        assert!(rt; found.is_some() == *is, "{options}");
    }
    // no file, and one without a key
    assert!(rt; read_options(alloc, "--key-file FILE", None)?.is_none());
    assert!(rt; read_options(alloc, "--key-file FILE", Some("07"))?.is_none());
    Ok(())
}

#[test]
fn what_options_say(rt: HostRuntime) -> Result<(), Fail> {
    let alloc = rt.alloc();
    let text =
        "--inner 10.0.1.1 --third-party 10.0.0.5/32 --rate 7 --inner 10.0.2.1 --key-file FILE";
    let ask = read_options(alloc, text, Some(KEY))?.ok_or("a command")?;
    assert!(rt; ask.command.inner == Address::v4(10, 0, 0, 1));
    assert!(rt; ask.command.key[31] == 31);
    let inner = [Address::v4(10, 0, 1, 1), Address::v4(10, 0, 2, 1)];
    assert!(rt; ask.more.inner.items() == inner.as_slice());
    assert!(rt; ask.more.third_party.items().len() == 1 && ask.more.rate == 7);
    let text = "proxy --key-file FILE";
    assert!(rt; key_file_of(alloc, &words_of(alloc, text)?)? == Some("FILE"));
    Ok(())
}

// As many options as may stand, and one more.
fn many(alloc: Global, name: &str, value: &str, count: u32) -> Result<bool, Memory> {
    let mut words = words_of(alloc, FRONT)?;
    for word in ["--key", KEY] {
        words.push(String::from_str(alloc, word)?)?;
    }
    for _ in 0..count {
        words.push(String::from_str(alloc, name)?)?;
        words.push(String::from_str(alloc, value)?)?;
    }
    Ok(proxy_ask_of(alloc, &words, None)?.is_some())
}

#[test]
fn most_options(rt: HostRuntime) -> Result<(), Fail> {
    let alloc = rt.alloc();
    assert!(rt; many(alloc, "--third-party", "10.0.0.0/8", 16)?);
    assert!(rt; !many(alloc, "--third-party", "10.0.0.0/8", 17)?);
    // beside the first one
    assert!(rt; many(alloc, "--inner", "10.0.1.1", 15)?);
    assert!(rt; !many(alloc, "--inner", "10.0.1.1", 16)?);
    Ok(())
}

// A cascade has no prefixes.
#[test]
fn cascades_pass_none_on(rt: HostRuntime) -> Result<(), Fail> {
    let alloc = rt.alloc();
    for (more, is) in [("--rate 5", true), ("--third-party 10.0.0.0/8", false)] {
        let mut words = words_of(alloc, CASCADE_FRONT)?;
        for word in "--low 20000 --high 29999".split(' ').chain(more.split(' ')) {
            words.push(String::from_str(alloc, word)?)?;
        }
        assert!(rt;
            cascade_ask_of(alloc, &words, None)?.is_some() == is,
            "{more}"
        );
    }
    Ok(())
}
