//! The words of mappings with those that stand among them, of `unmap` and of `keep`.
use client_commands::ClientCommand;
use client_words::{ClientAsk, ask_of, help_of, keep_of, nonce_file_of, read_nonce, write_nonce};
use pcp_base::{Address, Filter, Memory, Nonce};
use std::alloc::Global;
use std::test::Fail;

const NONCE: Nonce = Nonce([0, 1, 2, 3, 4, 5, 6, 7, 8, 9, 10, 11]);

const DIGITS: &[u8] = b"000102030405060708090A0b";

const MAP: &str = "map --server 192.0.2.9 --own 10.0.0.5 --protocol udp --port 5000";

const PEER: &str =
    "peer --server 192.0.2.9 --own 10.0.0.5 --protocol tcp --port 5000 --remote 198.51.100.7 --remote-port 443";

const UNMAP: &str = "unmap --server 192.0.2.9 --own 10.0.0.5 --protocol udp --port 5000";

const UNPEER: &str =
    "unmap --server 192.0.2.9 --own 10.0.0.5 --protocol tcp --port 5000 --remote 198.51.100.7 --remote-port 443";

const ANNOUNCE: &str = "announce --server 192.0.2.9 --own 10.0.0.5";

// Older words, words behind them, and whether they ask for something. A file has the digits of a nonce.
static WORDS: [(&str, &str, bool); 24] = [
    (MAP, "", true),
    (MAP, " --nonce 000102030405060708090a0b", true),
    (MAP, " --nonce 000102030405060708090a0", false),
    (MAP, " --nonce 000102030405060708090a0g", false),
    (MAP, " --nonce", false),
    (MAP, " --nonce=000102030405060708090a0b", false),
    (MAP, " --nonce-file x", true),
    (
        MAP,
        " --nonce-file x --nonce 000102030405060708090a0b",
        false,
    ),
    (MAP, " --nonce-file x --nonce-file x", false),
    (MAP, " --third-party 10.0.0.6", true),
    (MAP, " --third-party host", false),
    (MAP, " --third-party 10.0.0.6 --third-party 10.0.0.7", false),
    (MAP, " --filter 198.51.100.0/24", true),
    (
        MAP,
        " --filter 198.51.100.0/24,443 --filter 2001:db8::/32,1",
        true,
    ),
    (MAP, " --filter 198.51.100.0", false),
    (MAP, " --filter 198.51.100.0/24,0", false),
    (MAP, " --filter 198.51.100.0/24,65536", false),
    (PEER, " --nonce-file x --third-party 10.0.0.6", true),
    (PEER, " --filter 198.51.100.0/24", false),
    (ANNOUNCE, "", true),
    (ANNOUNCE, " --nonce-file x", false),
    (UNMAP, "", false),
    (UNMAP, " --nonce-file x", true),
    (UNPEER, " --nonce 000102030405060708090a0b", true),
];

fn words_of(alloc: Global, text: &str, behind: &str) -> Result<Vec<String>, Memory> {
    let mut words = Vec::new(alloc);
    for word in text.split(' ').chain(behind.split(' ')) {
        if !word.is_empty() {
            words.push(String::from_str(alloc, word)?)?;
        }
    }
    Ok(words)
}

fn read(alloc: Global, text: &str, behind: &str) -> Result<Option<ClientAsk>, Memory> {
    ask_of(alloc, &words_of(alloc, text, behind)?, Some(DIGITS))
}

#[test]
fn words_are_asks(rt: HostRuntime) -> Result<(), Fail> {
    for (text, behind, is) in &WORDS {
        let found = read(rt.alloc(), text, behind)?;
        assert!(rt; found.is_some() == *is, "{text}{behind}");
    }
    Ok(())
}

fn is_deletion_of_peer(ask: &ClientAsk) -> bool {
    ask.deletes && matches!(ask.command, ClientCommand::Peer(_, _)) && ask.more.nonce == Some(NONCE)
}

#[test]
fn options_are_read(rt: HostRuntime) -> Result<(), Fail> {
    let deletion = read(rt.alloc(), UNPEER, " --nonce-file x")?;
    assert!(rt; deletion.is_some_and(|ask| is_deletion_of_peer(&ask)));
    let behind = " --filter 198.51.100.0/24,443 --third-party 10.0.0.6";
    let filter = Filter {
        prefix: 120,
        port: 443,
        remote: Address::v4(198, 51, 100, 0),
    };
    let Some(ask) = read(rt.alloc(), MAP, behind)? else {
        return Err("refused".into());
    };
    assert!(rt; ask.more.filters.items() == [filter].as_slice());
    assert!(rt; ask.more.third == Some(Address::v4(10, 0, 0, 6)) && ask.more.nonce.is_none());
    Ok(())
}

// At most 8 filters.
#[test]
fn few_filters_are_taken(rt: HostRuntime) -> Result<(), Fail> {
    let mut words = words_of(rt.alloc(), MAP, "")?;
    for count in 1..=9 {
        words.push(String::from_str(rt.alloc(), "--filter")?)?;
        words.push(String::from_str(rt.alloc(), "198.51.100.0/24")?)?;
        assert!(rt; ask_of(rt.alloc(), &words, None)?.is_some() == (count <= 8));
    }
    Ok(())
}

// Words of `keep`, and whether they are such.
static KEEPS: [(&str, &str, bool); 4] = [
    (
        "keep --server 192.0.2.9 --own 10.0.0.5 --protocol tcp --port 443",
        "",
        true,
    ),
    (
        "keep --server 192.0.2.9 --own 10.0.0.5 --protocol tcp --port 443",
        " --tries 2",
        false,
    ),
    (
        "keep --server 192.0.2.9 --own 10.0.0.5 --protocol tcp --port 443",
        " --size 2 --nonce-file x",
        true,
    ),
    (MAP, "", false),
];

#[test]
fn words_are_kept(rt: HostRuntime) -> Result<(), Fail> {
    for (text, behind, is) in &KEEPS {
        let words = words_of(rt.alloc(), text, behind)?;
        let found = keep_of(rt.alloc(), &words, Some(DIGITS))?;
        assert!(rt; found.is_some() == *is, "{text}{behind}");
    }
    Ok(())
}

#[test]
fn a_nonce_is_read_again(rt: HostRuntime) -> Result<(), Fail> {
    let text = write_nonce(rt.alloc(), &NONCE)?;
    assert!(rt; text.as_slice() == b"000102030405060708090a0b\n".as_slice());
    assert!(rt; read_nonce(&text) == Some(NONCE) && read_nonce(DIGITS) == Some(NONCE));
    assert!(rt; read_nonce(&text[..23]).is_none());
    Ok(())
}

#[test]
fn the_file_is_told(rt: HostRuntime) -> Result<(), Fail> {
    let words = words_of(rt.alloc(), UNMAP, " --nonce-file x")?;
    assert!(rt; nonce_file_of(rt.alloc(), &words)? == Some("x"));
    assert!(rt; nonce_file_of(rt.alloc(), &words[..3])?.is_none());
    Ok(())
}

static HELPS: [&str; 5] = ["map", "peer", "announce", "unmap", "keep"];

#[test]
fn commands_have_help(rt: HostRuntime) -> Result<(), Fail> {
    for name in &HELPS {
        let long = help_of(rt.alloc(), &words_of(rt.alloc(), name, " --help")?)?;
        let short = help_of(rt.alloc(), &words_of(rt.alloc(), name, " -h")?)?;
        let (Some(long), Some(short)) = (long, short) else {
            return Err("no help".into());
        };
        assert!(rt; long.as_str().contains("Example: pcp "), "{long}");
        assert!(rt; short.as_str() == long.as_str());
    }
    let keep = help_of(rt.alloc(), &words_of(rt.alloc(), "keep", " --help")?)?;
    let Some(keep) = keep else {
        return Err("no help".into());
    };
    assert!(rt; keep.as_str().contains("--lifetime <N>"));
    assert!(rt; keep.as_str().contains("--nonce-file <FILE>"));
    assert!(rt; !keep.as_str().contains("--tries"));
    Ok(())
}
