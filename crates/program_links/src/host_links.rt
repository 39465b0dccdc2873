//! On which links of this host its IPv6 addresses stand.
use pcp_base::Address;
use std::fs;

/// Where the system tells that.
const IPV6_ADDRESSES: &str = "/proc/self/net/if_inet6";

/// An address of this host, and the number and name of the link on which it stands.
#[derive(Clone, Copy)]
struct Standing<'a> {
    address: Address,
    index: u32,
    link: &'a str,
}

/// What a line tells: the address, the number of its link in hexadecimal digits, three more columns, and
/// the name of the link, with spaces between them.
fn standing_of(line: &str) -> Option<Standing<'_>> {
    let (address, behind) = line.split_once(' ')?;
    let (index, _behind) = behind.split_once(' ')?;
    let (_before, link) = line.rsplit_once(' ')?;
    Some(Standing {
        address: Address::read(address.as_bytes()).ok()?,
        index: u32::from_str_radix(index, 16).ok()?,
        link,
    })
}

/// On which links of this host an address stands.
#[derive(Clone, Copy, Debug, PartialEq, Eq)]
pub(crate) enum Links {
    /// On none.
    None,
    /// On the one of this number alone.
    One(u32),
    /// On several.
    Several,
}

/// On which links this address stands by what the lines tell, of those with this name, or, where it is
/// empty, of all.
pub(crate) fn links_in(lines: &str, address: &Address, name: &[u8]) -> Links {
    let mut found = Links::None;
    for line in lines.split('\n') {
        let Some(standing) = standing_of(line) else {
            continue;
        };
        if standing.address != *address || !is_named(standing.link, name) {
            continue;
        }
        if found != Links::None {
            return Links::Several;
        }
        found = Links::One(standing.index);
    }
    found
}

/// Whether the link is meant.
fn is_named(link: &str, name: &[u8]) -> bool {
    name.is_empty() || link.as_bytes() == name
}

/// The same of this host: on none where the system doesn't tell.
pub(crate) fn links_of(rt: &HostRuntime, address: &Address, name: &[u8]) -> Links {
    match fs::read_to_string(rt, IPV6_ADDRESSES) {
        Ok(lines) => links_in(&lines, address, name),
        Err(_) => Links::None,
    }
}
