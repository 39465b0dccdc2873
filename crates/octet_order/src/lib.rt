//! The order and the equality of the octets of an address, told by the numbers that they spell.
#![tactic(auto)]

ghost use Rattle.std.specs.Prelude.{◌≡◌, bytes_eq};
ghost use Rattle.std.specs.Ordering.{nat_cmp};
ghost use Rattle.std.specs.Cmp.Lexicographic.{slice_cmp};

use std::cmp::Ordering;

/// Compares octets from the front, all at once.
#[inline]
pub fn compare_octets(a: &[u8; 16], b: &[u8; 16]) -> Ordering
    ensures { result ≡ slice_cmp nat_cmp a.now b.now }
{
    u128::from_be_bytes(*a).cmp(&u128::from_be_bytes(*b))
}

/// Tells whether the octets are the same, all at once.
#[inline]
pub fn same_octets(a: &[u8; 16], b: &[u8; 16]) -> bool
    ensures { result ≡ bytes_eq a.now b.now }
{
    u128::from_be_bytes(*a) == u128::from_be_bytes(*b)
}
