//! Words of the client's commands, and their help.
use client_commands::{ClientCommand, MapWanted, Mapping, PeerWanted, Target, command_of, help_of};
use pcp_base::{Address, Memory, Protocol};
use std::alloc::Global;
use std::test::Fail;

// Words with a space between each two, and whether they are a command.
static WORDS: [(&str, bool); 24] = [
    (
        "map --server 192.0.2.9 --own 10.0.0.5 --protocol udp --port 5000",
        true,
    ),
    (
        "map --port 5000 --protocol tcp --own 10.0.0.5 --server 192.0.2.9",
        true,
    ),
    (
        "map --server 192.0.2.9 --own 10.0.0.5 --protocol udp --port 5000 --tries 20",
        true,
    ),
    (
        "map --server 192.0.2.9 --own 10.0.0.5 --protocol udp --port 5000 --tries 21",
        false,
    ),
    (
        "map --server 192.0.2.9 --own 10.0.0.5 --protocol udp --port 5000 --tries 0",
        false,
    ),
    (
        "map --server 192.0.2.9 --own 10.0.0.5 --protocol udp --port 0",
        false,
    ),
    (
        "map --server 192.0.2.9 --own 10.0.0.5 --protocol udp --port 05000",
        false,
    ),
    (
        "map --server 192.0.2.9 --own 10.0.0.5 --protocol 17 --port 5000",
        false,
    ),
    ("map --server 192.0.2.9 --own 10.0.0.5 --port 5000", false),
    ("map --server 192.0.2.9 --protocol udp --port 5000", false),
    ("map --own 10.0.0.5 --protocol udp --port 5000", false),
    (
        "map --server 192.0.2.9 --own 10.0.0.5 --protocol udp --port 5000 --lifetime 0",
        false,
    ),
    (
        "map --server 192.0.2.9 --own 10.0.0.5 --protocol udp --port 5000 --size 65536",
        false,
    ),
    (
        "map --server 192.0.2.9 --own 10.0.0.5 --protocol udp --port 5000 --port 5000",
        false,
    ),
    (
        "map --server 192.0.2.9 --own 10.0.0.5 --protocol udp --port 5000 more",
        false,
    ),
    (
        "map --server host --own 10.0.0.5 --protocol udp --port 5000",
        false,
    ),
    (
        "Map --server 192.0.2.9 --own 10.0.0.5 --protocol udp --port 5000",
        false,
    ),
    (
        "map --server=192.0.2.9 --own=10.0.0.5 --protocol=udp --port=5000",
        true,
    ),
    ("map --help", false),
    ("announce --server 192.0.2.9 --own 10.0.0.5", true),
    (
        "announce --server 192.0.2.9 --own 10.0.0.5 --port 5000",
        false,
    ),
    ("announce", false),
    (
        "peer --server 192.0.2.9 --own 10.0.0.5 --protocol tcp --port 5000",
        false,
    ),
    ("proxy --server 192.0.2.9 --own 10.0.0.5", false),
];

// The words of a text.
fn words_of(alloc: Global, text: &str) -> Result<Vec<String>, Memory> {
    let mut words = Vec::new(alloc);
    for word in text.split(' ') {
        words.push(String::from_str(alloc, word)?)?;
    }
    Ok(words)
}

fn read(alloc: Global, text: &str) -> Result<Option<ClientCommand>, Memory> {
    command_of(alloc, &words_of(alloc, text)?)
}

#[test]
fn words_are_commands(rt: HostRuntime) -> Result<(), Fail> {
    for (text, is) in &WORDS {
        let Ok(found) = read(rt.alloc(), text) else {
            return Err("no memory".into());
        };
        assert!(rt; found.is_some() == *is, "{text}");
    }
    Ok(())
}

fn target() -> Target {
    Target {
        server: Address::v4(192, 0, 2, 9),
        own: Address::v4(10, 0, 0, 5),
        tries: 5,
    }
}

#[test]
fn maps_are_read(rt: HostRuntime) -> Result<(), Fail> {
    let text =
        "map --prefer-failure --size 8 --external-port 1024 --lifetime 3600 --port 5000 --protocol udp --own 10.0.0.5 --server 192.0.2.9";
    let wanted = MapWanted {
        mapping: Mapping {
            protocol: Protocol::Udp,
            port: 5000,
            lifetime: 3600,
            external: 1024,
        },
        size: 8,
        prefer: true,
    };
    assert!(rt; read(rt.alloc(), text) == Ok(Some(ClientCommand::Map(target(), wanted))));
    Ok(())
}

#[test]
fn peers_are_read(rt: HostRuntime) -> Result<(), Fail> {
    let text =
        "peer --server 192.0.2.9 --own 10.0.0.5 --protocol tcp --port 5000 --remote 10.0.0.5 --remote-port 443";
    let wanted = PeerWanted {
        mapping: Mapping {
            protocol: Protocol::Tcp,
            port: 5000,
            lifetime: 7200,
            external: 0,
        },
        remote: target().own,
        remote_port: 443,
    };
    assert!(rt; read(rt.alloc(), text) == Ok(Some(ClientCommand::Peer(target(), wanted))));
    let text = "announce --tries 5 --server 192.0.2.9 --own 10.0.0.5";
    assert!(rt; read(rt.alloc(), text) == Ok(Some(ClientCommand::Announce(target()))));
    Ok(())
}

// Words, and what their help has.
static HELPS: [(&str, &str); 6] = [
    (
        "map --help",
        "Example: pcp map --server 192.0.2.9 --own 10.0.0.5 --protocol udp --port 5000",
    ),
    (
        "peer --help",
        "Example: pcp peer --server 192.0.2.9 --own 10.0.0.5 --protocol tcp --port 5000",
    ),
    (
        "announce --help",
        "Example: pcp announce --server 192.0.2.9 --own 10.0.0.5",
    ),
    (
        "map -h",
        "Usage: pcp map [OPTIONS] --protocol <PROTOCOL> --port <N>",
    ),
    (
        "keep -h",
        "Usage: pcp keep [OPTIONS] --protocol <PROTOCOL> --port <N>",
    ),
    ("announce -h", "Usage: pcp announce [OPTIONS]\n"),
];

#[test]
fn commands_have_help(rt: HostRuntime) -> Result<(), Fail> {
    for (text, part) in &HELPS {
        let Ok(Some(help)) = help_of(rt.alloc(), &words_of(rt.alloc(), text)?) else {
            return Err("no help".into());
        };
        assert!(rt; help.as_str().contains(*part), "{help}");
    }
    let none = help_of(rt.alloc(), &words_of(rt.alloc(), "map --server")?)?;
    assert!(rt; none.is_none());
    Ok(())
}
