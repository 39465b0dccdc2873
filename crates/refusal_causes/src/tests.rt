//! Tests: what is told of words and of lines.
use crate::{line_cause, tool_cause, words_cause};
use pcp_base::{Address, Config, External, Listed, Memory, Orders};
use std::alloc::Global;
use std::test::Fail;

// Words with a space between each two, and what is told of them; nothing where they are a command.
static WORDS: [(&str, &str); 12] = [
    ("dump c j", ""),
    ("serve c j 5351 5400", ""),
    ("plai c s j 0", "plai: no such command"),
    ("play c s j", "play: expected CONFIG SCRIPT JOURNALS START"),
    ("dump c j 0", "dump: expected CONFIG JOURNALS"),
    ("dump  j", "CONFIG: expected a path"),
    (
        "play c s j 01",
        "START: expected a whole number from 0 to 1099511627775",
    ),
    (
        "load c j 0 -1 0",
        "NUMBER: expected a whole number from 0 to 18446744073709551615",
    ),
    (
        "load c j 0 7 1000001",
        "COUNT: expected a whole number from 0 to 1000000",
    ),
    (
        "serve c j 0 5400",
        "PORT: expected a whole number from 1 to 65535",
    ),
    (
        "serve c j 5351 65521",
        "LANEPORT: expected a whole number from 1 to 65520",
    ),
    (
        "serve c j 5351",
        "serve: expected CONFIG JOURNALS PORT LANEPORT",
    ),
];

// Words of tools, and what is told of them; nothing where no cause is found.
static TOOLS: [(&str, &str); 27] = [
    (
        "map --server 192.0.2.9 --own 10.0.0.5 --protocol udp --port 5000",
        "",
    ),
    (
        "map --server=192.0.2.9 --own=10.0.0.5 --protocol=udp --port=5000 --prefer-failure --nonce 000102030405060708090a0b",
        "",
    ),
    (
        "keep --server 192.0.2.9 --own 10.0.0.5 --protocol udp --port 5000 --filter 10.0.0.0/8 --filter 2001:db8::/32,443",
        "",
    ),
    (
        "map --server 192.0.2.9 --own 10.0.0.5 --protocol udp --port 0",
        "--port: expected a whole number from 1 to 65535",
    ),
    ("map --port 5000 --colour red", "--colour: no option of map"),
    ("map 5000", "5000: no option of map"),
    ("keep --tries 2", "--tries: no option of keep"),
    ("map --port 5000 --port 5001", "--port: given twice"),
    (
        "map --port",
        "--port: expected a whole number from 1 to 65535",
    ),
    (
        "map --prefer-failure=yes",
        "--prefer-failure: expected no value",
    ),
    ("map --protocol sctp", "--protocol: expected tcp or udp"),
    (
        "map --filter 10.0.0.0/8,0",
        "--filter: expected a prefix such as 198.51.100.0/24, and ,PORT or nothing",
    ),
    ("map --nonce 00", "--nonce: expected 24 hexadecimal digits"),
    (
        "map --nonce=000102030405060708090a0b",
        "--nonce: expected its value in the next word",
    ),
    ("announce --server 192.0.2.9", ""),
    ("map --server 10.0.0.1", "--protocol: missing"),
    ("proxy --server 192.0.2.9", "--own: missing"),
    (
        "unmap --server 192.0.2.9 --own 10.0.0.5 --protocol udp --port 5000",
        "unmap: --nonce or --nonce-file is missing",
    ),
    (
        "unmap --server 192.0.2.9 --own 10.0.0.5 --protocol udp --port 5000 --remote 198.51.100.7",
        "--remote-port: missing",
    ),
    (
        "proxy --server 192.0.2.9 --own 192.0.2.2 --inner 10.0.0.2 --key SHORT",
        "--key: expected 64 hexadecimal digits",
    ),
    (
        "proxy --server 192.0.2.9 --own 192.0.2.2 --inner 10.0.0.2 --inner 10.0.1.2",
        "--key: missing",
    ),
    (
        "proxy --server 192.0.2.9 --own 192.0.2.2 --inner 10.0.0.2 --key-file a --key-file b",
        "--key-file: given twice",
    ),
    (
        "proxy --third-party 10.0.0.0/8 --third-party 10.0.0.0/33",
        "--third-party: expected a prefix such as 10.0.0.0/24",
    ),
    (
        "proxy --rate 0",
        "--rate: expected a whole number from 1 to 100000",
    ),
    (
        "cascade --third-party 10.0.0.0/8",
        "--third-party: no option of cascade",
    ),
    (
        "map --third-party 10.0.0.5 --third-party 10.0.0.6",
        "--third-party: given twice",
    ),
    ("stop", ""),
];

#[test]
fn causes_of_tools(rt: HostRuntime) -> Result<(), Fail> {
    for (text, want) in &TOOLS {
        let told = tool_cause(rt.alloc(), &words_of(rt.alloc(), text)?)?;
        assert!(rt; is_told(&told, want), "{text}");
    }
    Ok(())
}

// Lines, and what is told of them; nothing of what is one.
static LINES: [(&str, &str); 18] = [
    ("# any", ""),
    ("packet 0 10.0.0.5 40000 -", ""),
    ("owners 0 192.0.2.1", ""),
    (
        "packet 0 10.0.0.5 40000 -\r",
        "a carriage return at its end",
    ),
    (
        "packet 0  10.0.0.5 40000 -",
        "expected one space between fields",
    ),
    (" # any", "expected one space between fields"),
    ("own 0 192.0.2.1", "expected packet, look, lose or owners"),
    (
        "packet 0 10.0.0.5 40000",
        "packet: expected MOMENT ADDRESS PORT HEX",
    ),
    ("lose 0", "lose: expected MOMENT EXTERNAL"),
    (
        "packet 00 10.0.0.5 40000 -",
        "MOMENT: expected a whole number from 0 to 1099511627775",
    ),
    (
        "packet 0 10.0.0 40000 -",
        "ADDRESS: expected an address such as 10.0.0.5 or 2001:db8::5",
    ),
    (
        "packet 0 10.0.0.5 65536 -",
        "PORT: expected a whole number from 0 to 65535",
    ),
    (
        "packet 0 10.0.0.5 40000 010",
        "HEX: expected -, or hexadecimal digits, two an octet, at most 4096",
    ),
    (
        "owners 0 192.0.2.2",
        "EXTERNAL: expected an external address of the configuration",
    ),
    (
        "look 0 192.0.2.1 1 9 10.0.0.5 0",
        "PROTOCOL: expected 6 or 17",
    ),
    (
        "look 0 192.0.2.1 6 0 10.0.0.5 0",
        "PORT: expected a whole number from 1 to 65535",
    ),
    (
        "look 0 192.0.2.1 6 9 10.0.0.256 0",
        "REMOTE: expected an address such as 10.0.0.5 or 2001:db8::5",
    ),
    (
        "look 0 192.0.2.1 6 9 10.0.0.5 -",
        "REMOTEPORT: expected a whole number from 0 to 65535",
    ),
];

#[test]
fn causes_of_words(rt: HostRuntime) -> Result<(), Fail> {
    for (text, want) in &WORDS {
        let words = words_of(rt.alloc(), text)?;
        let told = words_cause(rt.alloc(), &words)?;
        assert!(rt; is_told(&told, want), "{text}");
    }
    Ok(())
}

#[test]
fn causes_of_lines(rt: HostRuntime) -> Result<(), Fail> {
    let config = config_of(rt.alloc())?;
    for (text, want) in &LINES {
        let told = line_cause(rt.alloc(), &config, text.as_bytes())?;
        assert!(rt; is_told(&told, want), "{text}");
    }
    Ok(())
}

// Whether this was told, or nothing where that is wanted.
fn is_told(told: &Option<String>, want: &str) -> bool {
    match told {
        Some(told) => told.as_str() == want,
        None => want.is_empty(),
    }
}

// The words of a text.
fn words_of(alloc: Global, text: &str) -> Result<Vec<String>, Memory> {
    let mut words = Vec::new(alloc);
    for word in text.split(' ') {
        words.push(String::from_str(alloc, word)?)?;
    }
    Ok(words)
}

// A configuration with one external address.
fn config_of(alloc: Global) -> Result<Config, Memory> {
    let mut externals = Vec::new(alloc);
    externals.push(External {
        address: Address::v4(192, 0, 2, 1),
        low: 1024,
        high: 65_535,
    })?;
    Ok(Config {
        quota: 64,
        lifetime_min: 120,
        lifetime_max: 86_400,
        third_party: Listed::of(Vec::new(alloc)),
        externals: Listed::of(externals),
        subscribers: Listed::of(Vec::new(alloc)),
        listen: Listed::of(Vec::new(alloc)),
        orders: Orders::Both,
    })
}
