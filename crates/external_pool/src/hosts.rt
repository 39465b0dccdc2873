//! Addresses as keys, in an order that takes few steps to tell, and the slots that they have.
ghost use Rattle.std.specs.Prelude.{◌≡◌, ◌<◌, refl, bytes_eq};
ghost use Rattle.std.specs.Ordering.{nat_cmp, eq_by_cmp, as_partial_cmp};
ghost use Rattle.std.specs.Cmp.{partial_equiv_from_equiv, partial_order_from_total, eq_by_cmp_equiv};
ghost use Rattle.std.specs.Cmp.Lexicographic.{slice_cmp, nat_list_cmp_total};
ghost use Rattle.external_pool.specs.HostSlots.{slot_of};

use octet_order::{compare_octets, same_octets};
use std::cmp::Ordering;
use std::marker::Model;

/// The octets of an internal address.
#[derive(Clone, Copy)]
pub struct Host {
    pub octets: [u8; 16],
}

impl Model for Host {
    ghost use Rattle.std.specs.Prelude.{ℕ, List};

    ghost Value = { List ℕ };

    ghost view = { λ h. h.octets };

    ghost inverse = { λ v. record { octets = v } };
}

impl PartialEq for Host {
    ghost eq = { eq_by_cmp (slice_cmp nat_cmp) };

    ghost laws = { partial_equiv_from_equiv (eq_by_cmp_equiv nat_list_cmp_total) };

    fn eq(&self, other: &Host) -> bool {
        self.cmp(other).is_eq()
    }
}

impl Eq for Host {
    ghost laws = { eq_by_cmp_equiv nat_list_cmp_total };
}

impl PartialOrd for Host {
    ghost partial_cmp = { as_partial_cmp (slice_cmp nat_cmp) };

    ghost laws = { partial_order_from_total nat_list_cmp_total };

    fn partial_cmp(&self, other: &Host) -> Option<Ordering> {
        Some(self.cmp(other))
    }
}

impl Ord for Host {
    ghost cmp = { slice_cmp nat_cmp };

    ghost total = { nat_list_cmp_total };

    ghost matches_partial_cmp = { λ x y. refl };

    ghost matches_eq = { λ x y. refl };

    fn cmp(&self, other: &Host) -> Ordering {
        compare_octets(&self.octets, &other.octets)
    }
}

/// How many slots there are.
pub(crate) const SLOTS: usize = 4_096;

/// An odd number near 2^128 over the golden ratio: its products spread hosts over the slots.
const MIXER: u128 = 0x9e37_79b9_7f4a_7c15_f39c_c060_5ced_c835;

impl Host {
    /// The slot that it has.
    #[inline]
    pub(crate) fn slot(&self) -> usize
        ensures slot { result ≡ slot_of self.now }
        ensures below { result < SLOTS }
    {
        (u128::from_be_bytes(self.octets).wrapping_mul(MIXER) >> 116) as usize
    }

    /// Whether the other is the same.
    #[inline]
    pub(crate) fn is(&self, other: &Host) -> bool
        ensures { result ≡ bytes_eq self.now other.now }
    {
        same_octets(&self.octets, &other.octets)
    }
}
