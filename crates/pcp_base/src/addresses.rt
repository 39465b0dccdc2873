//! Addresses, nonces and prefixes, and their texts.
ghost use Rattle.std.specs.Prelude.{◌≡◌, ℕ, ◌==◌, false, nat_eq, bytes_eq, List, ◌++◌, codes, All, IfSome, IfNone, IfOk, OnOk, OnErr, string_bytes};
ghost use Rattle.std.specs.List.{starts_with};
ghost use Rattle.std.specs.Cmp.{on_per, partial_equiv_from_equiv};
ghost use Rattle.std.specs.Cmp.Lexicographic.{nat_list_eq_equiv};
ghost use Rattle.pcp_base.specs.Pairing.{holds, leading, v4_octets};
ghost use Rattle.pcp_base.specs.AddressTexts.{v4_front, IsDottedText, IsLongText, IsColonText, IsWideText, IsAddressText, IsPrefixText, address_text};
ghost use Rattle.pcp_base.specs.declared.addresses.Address.{Address};
ghost use Rattle.pcp_base.specs.declared.addresses.Prefix.{Prefix};

use crate::errors::Memory;
use crate::numbers::read_number;
use hex::FromHex;
use octet_order::same_octets;
use std::alloc::{AllocError, Global};
use std::net::{Ipv4Addr, Ipv6Addr};
use thiserror::Error;

/// An IPv6 address, or an IPv4 address as `::ffff:a.b.c.d` (RFC 6887, section 5).
#[derive(Clone, Copy, Debug, Eq, PartialOrd, Ord, Hash)]
pub struct Address(pub [u8; 16]);

// As a derive compares, but all octets at once.
impl PartialEq for Address {
    ghost eq = { λ a b. bytes_eq a.0 b.0 };

    ghost laws = { on_per (λ (a : Address). a.0) (partial_equiv_from_equiv nat_list_eq_equiv) };

    #[inline]
    fn eq(&self, other: &Address) -> bool {
        same_octets(&self.0, &other.0)
    }
}

/// A mapping nonce (RFC 6887, section 11.1).
#[derive(Clone, Copy, Debug, PartialEq, Eq, Hash)]
pub struct Nonce(pub [u8; 12]);

/// The addresses whose first `bits` bits are those of `address`.
#[derive(Clone, Copy, Debug, PartialEq, Eq, Hash)]
pub struct Prefix {
    /// 0 to 128.
    pub bits: u8,
    /// The bits past the first `bits` don't count.
    pub address: Address,
}

/// The text is no address.
#[derive(Clone, Copy, Debug, PartialEq, Eq, Error)]
#[error("not an address")]
pub struct NotAddress;

/// The text is no prefix.
#[derive(Clone, Copy, Debug, PartialEq, Eq, Error)]
#[error("not a prefix")]
pub struct NotPrefix;

impl Address {
    /// What an IPv4 address begins with (RFC 6887, section 5).
    const V4_FRONT: [u8; 12] = [0, 0, 0, 0, 0, 0, 0, 0, 0, 0, 255, 255];

    /// The address of the IPv4 address `a.b.c.d` (RFC 6887, section 5).
    pub fn v4(a: u8, b: u8, c: u8, d: u8) -> Address
        ensures { result.0 ≡ v4_octets a b c d }
    {
        Address([0, 0, 0, 0, 0, 0, 0, 0, 0, 0, 255, 255, a, b, c, d])
    }

    /// The address that the text writes: four decimal numbers of at most 255, without leading zeros and
    /// with dots between them, or exactly 32 hexadecimal digits of either case, or a usual text of IPv6
    /// (RFC 4291, section 2.2), as `2001:db8::1`; `::ffff:192.0.2.1` is the IPv4 address `192.0.2.1`. A
    /// text writes at most one.
    pub fn read(text: &[u8]) -> Result<Address, NotAddress>
        ensures text { IfOk result (IsAddressText text.now) }
        ensures only { IfOk result (λ a. (b : Address) → IsAddressText text.now b → b ≡ a) }
        ensures refused { OnErr result ((a : Address) → ¬ (IsAddressText text.now a)) }
    {
        if let Some(address) = Address::read_dotted(text) {
            return Ok(address);
        }
        Address::read_wide(text).ok_or(NotAddress)
    }

    fn read_dotted(text: &[u8]) -> Option<Address>
        ensures text { IfSome result (IsDottedText text.now) }
        ensures none { IfNone result ((a : Address) → ¬ (IsDottedText text.now a)) }
    {
        let Ok(plain) = std::str::from_utf8(text) else {
            return None;
        };
        let Ok(dotted) = plain.parse::<Ipv4Addr>() else {
            return None;
        };
        let [a, b, c, d] = dotted.octets();
        Some(Address::v4(a, b, c, d))
    }

    fn read_wide(text: &[u8]) -> Option<Address>
        ensures text { IfSome result (IsWideText text.now) }
        ensures none { IfNone result ((a : Address) → ¬ (IsWideText text.now a)) }
    {
        if let Some(address) = Address::read_long(text) {
            return Some(address);
        }
        Address::read_colon(text)
    }

    fn read_long(text: &[u8]) -> Option<Address>
        ensures text { IfSome result (IsLongText text.now) }
        ensures none { IfNone result ((a : Address) → ¬ (IsLongText text.now a)) }
    {
        match <[u8; 16] as FromHex>::from_hex(text) {
            Ok(octets) => Some(Address(octets)),
            Err(_) => None,
        }
    }

    fn read_colon(text: &[u8]) -> Option<Address>
        ensures text { IfSome result (IsColonText text.now) }
        ensures none { IfNone result ((a : Address) → ¬ (IsColonText text.now a)) }
    {
        let Ok(plain) = std::str::from_utf8(text) else {
            return None;
        };
        let Ok(colon) = plain.parse::<Ipv6Addr>() else {
            return None;
        };
        Some(Address(colon.octets()))
    }

    /// Appends the text of the address: dotted where it is an IPv4 address, else 32 lower-case
    /// hexadecimal digits. `read` gives the address back.
    pub fn write(&self, alloc: Global, out: &mut Vec<u8>) -> Result<(), Memory>
        ensures ok { OnOk result (out.new.items ≡ out.old.items ++ address_text self.now) }
        ensures err { OnErr result (out.new.items ≡ out.old.items) }
        ensures read_again { IsAddressText (address_text self.now) self.now }
    {
        let text = self.text(alloc)?;
        out.extend_from_slice(text.as_bytes())?;
        Ok(())
    }

    fn text(&self, alloc: Global) -> Result<String, AllocError>
        ensures value { IfOk result (λ text. string_bytes text ≡ address_text self.now) }
        ensures read_again { IsAddressText (address_text self.now) self.now }
    {
        if is_v4(&self.0) {
            let [.., a, b, c, d] = self.0;
            format!(in alloc; "{}", Ipv4Addr::new(a, b, c, d))
        } else {
            hex::encode(alloc, self.0)
        }
    }

    /// The first `bits` bits, as a number.
    fn leading(&self, bits: u8) -> u128
        ensures { result ≡ leading bits self.now }
    {
        let number = u128::from_be_bytes(self.0);
        match bits {
            0 => 0,
            1..=127 => number >> (128 - bits),
            _ => number,
        }
    }
}

// Whether this is an IPv4 address. Of either kind it is, its text writes it: the law stands here, where
// its octets are read and so known to be octets.
fn is_v4(octets: &[u8; 16]) -> bool
    ensures value { result ≡ starts_with nat_eq octets.now v4_front }
    ensures read_again { let a : Address = record { 0 = octets.now }
        in IsAddressText (address_text a) a }
{
    octets.starts_with(&Address::V4_FRONT)
}

impl Prefix {
    /// The prefix that the text writes: an address, `/` and a decimal number, which is at most 32 after a
    /// dotted address, where it counts as 96 more, and at most 128 after any other text, also after one
    /// such as `::ffff:192.0.2.1`. A text writes at most one.
    pub fn read(text: &[u8]) -> Result<Prefix, NotPrefix>
        ensures text { IfOk result (IsPrefixText text.now) }
        ensures only { IfOk result (λ p. (q : Prefix) → IsPrefixText text.now q → q ≡ p) }
        ensures refused { OnErr result ((p : Prefix) → ¬ (IsPrefixText text.now p)) }
    {
        let Some((front, back)) = around_slash(text) else {
            return Err(NotPrefix);
        };
        let Some(bits) = read_number(back, 128) else {
            return Err(NotPrefix);
        };
        match (Address::read_dotted(front), Address::read_wide(front)) {
            (Some(address), _) if bits <= 32 => Ok(Prefix {
                bits: 96 + bits as u8,
                address,
            }),
            (None, Some(address)) => Ok(Prefix {
                bits: bits as u8,
                address,
            }),
            _ => Err(NotPrefix),
        }
    }

    /// Whether the first bits of the address are those of the prefix.
    pub fn holds(&self, address: &Address) -> bool
        ensures { result ≡ holds self.now address.now }
    {
        self.address.leading(self.bits) == address.leading(self.bits)
    }
}

// What stands before and behind the first slash.
fn around_slash(text: &[u8]) -> Option<(&[u8], &[u8])>
    ensures parts { IfSome result (λ p. text.now ≡ p.0.now ++ codes "/" ++ p.1.now) }
    ensures first { IfSome result (λ p. All (λ c. (c == 47) ≡ false) p.0.now) }
    ensures none { IfNone result ((front back : List ℕ)
        → ¬ (text.now ≡ front ++ codes "/" ++ back)) }
{
    let slash = text.iter().position(|octet| *octet == b'/')?;
    Some((&text[..slash], &text[slash + 1..]))
}
