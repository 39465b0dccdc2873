//! Texts of addresses at which a server listens.
ghost use Rattle.std.specs.Prelude.{◌≡◌, ◌==◌, ℕ, List, [], ◌++◌, codes, false, All, IfSome, IfNone};
ghost use Rattle.std.specs.List.{list_all};
ghost use Rattle.pcp_base.specs.Configs.{is_link_local, is_multicast, is_unspecified};
ghost use Rattle.pcp_base.specs.declared.addresses.Address.{Address};
ghost use Rattle.pcp_base.specs.declared.configs.ListenAddress.{ListenAddress};
ghost use Rattle.pcp_config.specs.ConfigTables.{is_link_name, is_link_octet, IsHostText, IsLinked, IsListenText};

use crate::LONGEST_LINK;
use pcp_base::{Address, Prefix};

// ff00::/8 (RFC 4291, section 2.7)
const MULTICAST: Prefix = Prefix {
    bits: 8,
    address: Address([0xff, 0, 0, 0, 0, 0, 0, 0, 0, 0, 0, 0, 0, 0, 0, 0]),
};

// 224.0.0.0/4 (RFC 5771)
const V4_MULTICAST: Prefix = Prefix {
    bits: 100,
    address: Address([0, 0, 0, 0, 0, 0, 0, 0, 0, 0, 0xff, 0xff, 224, 0, 0, 0]),
};

// fe80::/10 (RFC 4291, section 2.5.6)
const LINK_LOCAL: Prefix = Prefix {
    bits: 10,
    address: Address([0xfe, 0x80, 0, 0, 0, 0, 0, 0, 0, 0, 0, 0, 0, 0, 0, 0]),
};

// ::
const UNSPECIFIED: Prefix = Prefix {
    bits: 128,
    address: Address([0; 16]),
};

// 0.0.0.0
const V4_UNSPECIFIED: Prefix = Prefix {
    bits: 128,
    address: Address([0, 0, 0, 0, 0, 0, 0, 0, 0, 0, 0xff, 0xff, 0, 0, 0, 0]),
};

fn is_multicast(address: &Address) -> bool
    ensures { result ≡ is_multicast address.now }
{
    MULTICAST.holds(address) || V4_MULTICAST.holds(address)
}

fn is_unspecified(address: &Address) -> bool
    ensures { result ≡ is_unspecified address.now }
{
    UNSPECIFIED.holds(address) || V4_UNSPECIFIED.holds(address)
}

/// Whether the address stands for one host on each link.
pub(crate) fn is_link_local(address: &Address) -> bool
    ensures { result ≡ is_link_local address.now }
{
    LINK_LOCAL.holds(address)
}

/// The address and the name of its link, empty where none is named, that an entry of `listen` writes.
pub(crate) fn listen_parts(text: &[u8]) -> Option<(Address, &[u8])>
    ensures parts { IfSome result (λ p.
        IsListenText text.now (record { address = p.0; link = p.1.now })) }
    ensures none { IfNone result ((x : ListenAddress) → ¬ (IsListenText text.now x)) }
{
    let Some((front, link)) = around_percent(text) else {
        let address = host_address(text)?;
        return Some((address, b""));
    };
    let address = linked_address(front, link)?;
    Some((address, link))
}

/// The address at which a host may listen that the text writes.
pub(crate) fn host_address(text: &[u8]) -> Option<Address>
    ensures address { IfSome result (IsHostText text.now) }
    ensures none { IfNone result ((a : Address) → ¬ (IsHostText text.now a)) }
{
    let Ok(address) = Address::read(text) else {
        return None;
    };
    if is_unspecified(&address) {
        return None;
    }
    if is_multicast(&address) {
        return None;
    }
    Some(address)
}

fn linked_address(text: &[u8], link: &[u8]) -> Option<Address>
    ensures address { IfSome result (IsLinked text.now link.now) }
    ensures none { IfNone result ((a : Address) → ¬ (IsLinked text.now link.now a)) }
{
    let address = host_address(text)?;
    if !is_link_local(&address) {
        return None;
    }
    if !is_link_name(link) {
        return None;
    }
    Some(address)
}

fn is_link_name(name: &[u8]) -> bool
    ensures { result ≡ is_link_name name.now }
{
    !name.is_empty() && name.len() <= LONGEST_LINK && has_link_octets(name)
}

fn has_link_octets(name: &[u8]) -> bool
    ensures { result ≡ list_all is_link_octet name.now }
{
    name.iter().all(|octet| is_link_octet(*octet))
}

fn is_link_octet(octet: u8) -> bool
    ensures { result ≡ is_link_octet octet }
{
    octet.is_ascii_graphic() && octet != b'%' && octet != b'/' && octet != b':'
}

/// What stands before and behind the first `%`.
pub(crate) fn around_percent(text: &[u8]) -> Option<(&[u8], &[u8])>
    ensures parts { IfSome result (λ p. text.now ≡ p.0.now ++ codes "%" ++ p.1.now) }
    ensures first { IfSome result (λ p. All (λ c. (c == 37) ≡ false) p.0.now) }
    ensures none { IfNone result ((front back : List ℕ)
        → ¬ (text.now ≡ front ++ codes "%" ++ back)) }
{
    let percent = text.iter().position(|octet| *octet == b'%')?;
    Some((&text[..percent], &text[percent + 1..]))
}
