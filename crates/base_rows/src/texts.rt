//! What texts of addresses, prefixes and numbers mean, and that calls succeed with ample memory.
use crate::rows::none_other;
use pcp_base::{Address, Memory, Prefix, read_number};
use std::alloc::Global;

// 2001:db8::af
const LONG: Address = Address([
    0x20, 0x01, 0x0d, 0xb8, 0, 0, 0, 0, 0, 0, 0, 0, 0, 0, 0, 0xaf,
]);

// 10.0.0.0
const TEN: Address = Address([0, 0, 0, 0, 0, 0, 0, 0, 0, 0, 0xff, 0xff, 10, 0, 0, 0]);

// A text, the address that it writes, and how that is written.
static ADDRESSES: [(&[u8], Address, &[u8]); 5] = [
    (
        b"10.0.0.5",
        Address([0, 0, 0, 0, 0, 0, 0, 0, 0, 0, 0xff, 0xff, 10, 0, 0, 5]),
        b"10.0.0.5",
    ),
    (
        b"255.255.255.255",
        Address([0, 0, 0, 0, 0, 0, 0, 0, 0, 0, 0xff, 0xff, 255, 255, 255, 255]),
        b"255.255.255.255",
    ),
    (
        b"00000000000000000000FFFFC0000201",
        Address([0, 0, 0, 0, 0, 0, 0, 0, 0, 0, 0xff, 0xff, 192, 0, 2, 1]),
        b"192.0.2.1",
    ),
    (
        b"20010db80000000000000000000000af",
        LONG,
        b"20010db80000000000000000000000af",
    ),
    (
        b"20010DB80000000000000000000000aF",
        LONG,
        b"20010db80000000000000000000000af",
    ),
];

static NO_ADDRESSES: [&[u8]; 9] = [
    b"20010db80000000000000000000000a",
    b"20010db80000000000000000000000aff",
    b"20010db80000000000000000000000ag",
    b"10.0.0.05",
    b"256.0.0.5",
    b"10.0.0",
    b"10.0.0.5.",
    b"10.0.0.\xff",
    b"",
];

// An address and texts that write it: those of RFC 4291, section 2.2.
static OF_4291: [(Address, &[&[u8]]); 7] = [
    (
        Address([
            0xab, 0xcd, 0xef, 0x01, 0x23, 0x45, 0x67, 0x89, 0xab, 0xcd, 0xef, 0x01, 0x23, 0x45,
            0x67, 0x89,
        ]),
        &[b"ABCD:EF01:2345:6789:ABCD:EF01:2345:6789"],
    ),
    (
        Address([
            0x20, 0x01, 0x0d, 0xb8, 0, 0, 0, 0, 0, 0x08, 0x08, 0, 0x20, 0x0c, 0x41, 0x7a,
        ]),
        &[
            b"2001:DB8:0:0:8:800:200C:417A",
            b"2001:DB8::8:800:200C:417A",
        ],
    ),
    (
        Address([0xff, 0x01, 0, 0, 0, 0, 0, 0, 0, 0, 0, 0, 0, 0, 0x01, 0x01]),
        &[b"FF01:0:0:0:0:0:0:101", b"FF01::101"],
    ),
    (
        Address([0, 0, 0, 0, 0, 0, 0, 0, 0, 0, 0, 0, 0, 0, 0, 1]),
        &[b"0:0:0:0:0:0:0:1", b"::1"],
    ),
    (Address([0; 16]), &[b"0:0:0:0:0:0:0:0", b"::"]),
    (
        Address([0, 0, 0, 0, 0, 0, 0, 0, 0, 0, 0, 0, 13, 1, 68, 3]),
        &[b"0:0:0:0:0:0:13.1.68.3", b"::13.1.68.3"],
    ),
    (
        Address([0, 0, 0, 0, 0, 0, 0, 0, 0, 0, 0xff, 0xff, 129, 144, 52, 38]),
        &[
            b"0:0:0:0:0:FFFF:129.144.52.38",
            b"::FFFF:129.144.52.38",
            b"::ffff:8190:3426",
            b"129.144.52.38",
        ],
    ),
];

// Those of RFC 5952, sections 2 and 4.
static OF_5952: [(Address, &[&[u8]]); 7] = [
    (
        Address([0x20, 0x01, 0x0d, 0xb8, 0, 0, 0, 0, 0, 1, 0, 0, 0, 0, 0, 1]),
        &[
            b"2001:db8:0:0:1:0:0:1",
            b"2001:0db8:0:0:1:0:0:1",
            b"2001:db8::1:0:0:1",
            b"2001:db8::0:1:0:0:1",
            b"2001:0db8::1:0:0:1",
            b"2001:db8:0:0:1::1",
            b"2001:db8:0000:0:1::1",
            b"2001:DB8:0:0:1::1",
        ],
    ),
    (
        Address([
            0x20, 0x01, 0x0d, 0xb8, 0xaa, 0xaa, 0xbb, 0xbb, 0xcc, 0xcc, 0xdd, 0xdd, 0xee, 0xee, 0,
            1,
        ]),
        &[
            b"2001:db8:aaaa:bbbb:cccc:dddd:eeee:0001",
            b"2001:db8:aaaa:bbbb:cccc:dddd:eeee:001",
            b"2001:db8:aaaa:bbbb:cccc:dddd:eeee:01",
            b"2001:db8:aaaa:bbbb:cccc:dddd:eeee:1",
        ],
    ),
    (
        Address([
            0x20, 0x01, 0x0d, 0xb8, 0xaa, 0xaa, 0xbb, 0xbb, 0xcc, 0xcc, 0xdd, 0xdd, 0, 0, 0, 1,
        ]),
        &[
            b"2001:db8:aaaa:bbbb:cccc:dddd::1",
            b"2001:db8:aaaa:bbbb:cccc:dddd:0:1",
        ],
    ),
    (
        Address([0x20, 0x01, 0x0d, 0xb8, 0, 0, 0, 0, 0, 0, 0, 0, 0, 0, 0, 1]),
        &[
            b"2001:db8:0:0:0::1",
            b"2001:db8:0:0::1",
            b"2001:db8:0::1",
            b"2001:db8::1",
            b"2001:db8::0:1",
        ],
    ),
    (
        Address([
            0x20, 0x01, 0x0d, 0xb8, 0, 0, 0, 0, 0xaa, 0xaa, 0, 0, 0, 0, 0, 1,
        ]),
        &[
            b"2001:db8::aaaa:0:0:1",
            b"2001:db8:0:0:aaaa::1",
            b"2001:db8:0:0:AAAA::1",
        ],
    ),
    (
        Address([0x20, 0x01, 0x0d, 0xb8, 0, 0, 0, 1, 0, 1, 0, 1, 0, 1, 0, 1]),
        &[b"2001:db8:0:1:1:1:1:1", b"2001:db8::1:1:1:1:1"],
    ),
    (
        Address([0x20, 0x01, 0, 0, 0, 0, 0, 1, 0, 0, 0, 0, 0, 0, 0, 1]),
        &[b"2001:0:0:1:0:0:0:1", b"2001:0:0:1::1"],
    ),
];

static NO_COLONS: [&[u8]; 24] = [
    b"1::2::3",
    b"::1::",
    b"1:2:3:4:5:6:7",
    b"1:2:3:4:5:6:7:8:9",
    b"1:2:3:4::5:6:7:8",
    b"1:2:3:4:5:6:7:1.2.3.4",
    b"2001:db8::12345",
    b"2001:db8::g",
    b":1:2:3:4:5:6:7:8",
    b"1:2:3:4:5:6:7:8:",
    b":1::",
    b"::1:",
    b":::",
    b":",
    b"1.2.3.4::",
    b"::1.2.3.4:5",
    b"::1.2.3",
    b"::1.2.3.04",
    b"::1.2.3.256",
    b"fe80::1%eth0",
    b"[::1]",
    b" ::1",
    b"::1 ",
    b"::1\xff",
];

// Whether the address is written so.
fn is_written(alloc: Global, address: &Address, printed: &[u8]) -> Result<bool, Memory> {
    let mut out = Vec::new(alloc);
    address.write(alloc, &mut out)?;
    Ok(out.as_slice() == printed)
}

// The first text that is read otherwise, or whose address is written otherwise.
fn first_other_address(alloc: Global) -> Result<Option<usize>, Memory> {
    for (i, (text, want, printed)) in ADDRESSES.iter().enumerate() {
        if Address::read(text).ok() != Some(*want) || !is_written(alloc, want, printed)? {
            return Ok(Some(i));
        }
    }
    Ok(None)
}

// The first address of which a text is read otherwise.
fn first_other_text(rows: &[(Address, &[&[u8]])]) -> Option<usize> {
    for (i, (address, texts)) in rows.iter().enumerate() {
        if !are_read_as(texts, *address) {
            return Some(i);
        }
    }
    None
}

fn are_read_as(texts: &[&[u8]], address: Address) -> bool {
    texts
        .iter()
        .all(|text| Address::read(text).ok() == Some(address))
}

#[test]
fn addresses_with_colons(rt: HostRuntime) {
    none_other(&rt, Ok(first_other_text(&OF_4291)));
    none_other(&rt, Ok(first_other_text(&OF_5952)));
    for text in &NO_COLONS {
        assert!(rt; Address::read(text).is_err(), "{}", text.escape_ascii());
    }
}

#[test]
fn addresses_in_texts(rt: HostRuntime) {
    none_other(&rt, first_other_address(rt.alloc()));
    for text in &NO_ADDRESSES {
        assert!(rt; Address::read(text).is_err(), "{}", text.escape_ascii());
    }
}

// A text, the address and the bits of the prefix that it writes, an address that it holds, and one
// that it doesn't.
static PREFIXES: [(&[u8], Address, u8, Address, Address); 10] = [
    (
        b"10.0.0.0/8",
        TEN,
        104,
        Address([0, 0, 0, 0, 0, 0, 0, 0, 0, 0, 0xff, 0xff, 10, 255, 255, 255]),
        Address([0, 0, 0, 0, 0, 0, 0, 0, 0, 0, 0xff, 0xff, 11, 0, 0, 0]),
    ),
    (
        b"10.0.0.0/9",
        TEN,
        105,
        Address([0, 0, 0, 0, 0, 0, 0, 0, 0, 0, 0xff, 0xff, 10, 127, 255, 255]),
        Address([0, 0, 0, 0, 0, 0, 0, 0, 0, 0, 0xff, 0xff, 10, 128, 0, 0]),
    ),
    (
        b"10.0.0.0/32",
        TEN,
        128,
        TEN,
        Address([0, 0, 0, 0, 0, 0, 0, 0, 0, 0, 0xff, 0xff, 10, 0, 0, 1]),
    ),
    (
        b"10.0.0.0/0",
        TEN,
        96,
        Address([0, 0, 0, 0, 0, 0, 0, 0, 0, 0, 0xff, 0xff, 255, 0, 0, 0]),
        LONG,
    ),
    (
        b"20010db80000000000000000000000af/128",
        LONG,
        128,
        LONG,
        TEN,
    ),
    (
        b"20010db80000000000000000000000af/3",
        LONG,
        3,
        Address([0x3f; 16]),
        Address([0x40; 16]),
    ),
    (b"2001:db8::af/128", LONG, 128, LONG, TEN),
    (
        b"2001:0DB8:0:CD30::/60",
        Address([
            0x20, 0x01, 0x0d, 0xb8, 0, 0, 0xcd, 0x30, 0, 0, 0, 0, 0, 0, 0, 0,
        ]),
        60,
        Address([
            0x20, 0x01, 0x0d, 0xb8, 0, 0, 0xcd, 0x3f, 0, 0, 0, 0, 0, 0, 0, 1,
        ]),
        Address([
            0x20, 0x01, 0x0d, 0xb8, 0, 0, 0xcd, 0x40, 0, 0, 0, 0, 0, 0, 0, 0,
        ]),
    ),
    (
        b"::ffff:10.0.0.0/104",
        TEN,
        104,
        Address([0, 0, 0, 0, 0, 0, 0, 0, 0, 0, 0xff, 0xff, 10, 255, 255, 255]),
        Address([0, 0, 0, 0, 0, 0, 0, 0, 0, 0, 0xff, 0xff, 11, 0, 0, 0]),
    ),
    (b"::ffff:10.0.0.0/8", TEN, 8, Address([0; 16]), LONG),
];

static NO_PREFIXES: [&[u8]; 13] = [
    b"10.0.0.0/33",
    b"::/129",
    b"2001:0DB8:0:CD3/60",
    b"2001:db8::",
    b"2001:db8::/032",
    b"fe80::1%eth0/64",
    b"20010db80000000000000000000000af/129",
    b"10.0.0.0/08",
    b"10.0.0.0/",
    b"10.0.0.0",
    b"10.0.0/8",
    b"10.0.0.0/8/8",
    b"/8",
];

// The first text that is read otherwise, or whose prefix holds otherwise.
fn first_other_prefix() -> Option<usize> {
    for (i, (text, address, bits, inside, outside)) in PREFIXES.iter().enumerate() {
        let prefix = Prefix {
            bits: *bits,
            address: *address,
        };
        let holds = prefix.holds(inside) && !prefix.holds(outside);
        if !holds || Prefix::read(text).ok() != Some(prefix) {
            return Some(i);
        }
    }
    None
}

#[test]
fn prefixes_in_texts(rt: HostRuntime) {
    none_other(&rt, Ok(first_other_prefix()));
    for text in &NO_PREFIXES {
        assert!(rt; Prefix::read(text).is_err(), "{}", text.escape_ascii());
    }
}

#[test]
fn a_prefix_of_no_bits_holds_all(rt: HostRuntime) {
    let all = Prefix {
        bits: 0,
        address: LONG,
    };
    assert!(rt; all.holds(&Address([0xff; 16])) && all.holds(&Address([0; 16])));
}

// A text, the greatest number that it may write, and what it writes.
static NUMBERS: [(&[u8], u64, Option<u64>); 14] = [
    (b"0", 0, Some(0)),
    (b"7", 7, Some(7)),
    (b"8", 7, None),
    (b"1024", 65535, Some(1024)),
    (b"18446744073709551615", u64::MAX, Some(u64::MAX)),
    (b"18446744073709551616", u64::MAX, None),
    (b"00", 9, None),
    (b"07", 9, None),
    (b"+7", 9, None),
    (b"-0", 9, None),
    (b" 7", 9, None),
    (b"7a", 9, None),
    (b"1\xff", 9, None),
    (b"", 9, None),
];

#[test]
fn numbers_in_texts(rt: HostRuntime) {
    for (text, most, want) in &NUMBERS {
        let number = read_number(text, *most);
        assert!(rt; number == *want, "{}", text.escape_ascii());
    }
}
