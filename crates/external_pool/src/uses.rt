//! What a port is used for.

ghost use Rattle.std.specs.Prelude.{◌≡◌, ◌+◌, ◌≤◌, ◌<◌, ℕ, length, IfOk, vec_len};
ghost use Rattle.external_pool.specs.PortUses as the;
ghost use Rattle.external_pool.specs.declared.uses.Use.TheVariants.{Resting};

use pcp_base::Address;
use std::alloc::{AllocError, Global};

/// How many numbers a port may have.
pub const PORTS: usize = 65536;

/// What a port is used for.
#[derive(Clone, Copy, Debug, PartialEq, Eq)]
pub enum Use {
    Free,
    /// An address holds it.
    Held(Address),
    /// It rests for the address and internal port that held it last.
    Resting(Address, u16),
}

/// `count` ports that nobody uses.
#[tactic(auto, unfolding(crate::specs::PortUses::all_free))]
pub fn cleared(alloc: Global, count: usize) -> Result<Vec<Use>, AllocError>
    ensures all { IfOk result (λ each. each.items ≡ the.all_free count) }
    ensures len { IfOk result (λ each. vec_len each ≡ count) }
{
    let each = vec![in alloc; Use::Free; count]?;
    Ok(each)
}

/// A port that rests for this address and internal port.
pub fn resting(last: Address, internal: u16) -> Use
    ensures value { result ≡ Resting last internal }
    ensures small { the.internal_of result + 1 ≤ 65536 }
{
    Use::Resting(last, internal)
}

/// Whether nobody holds it, and it rests for nobody.
pub fn is_free_use(value: Use) -> bool
    ensures { result ≡ the.is_free_use value }
{
    match value {
        Use::Free => true,
        Use::Held(_) => false,
        Use::Resting(_, _) => false,
    }
}

/// Whether nobody holds it, and it rests for no other endpoint.
pub fn is_free_to(value: Use, who: &Address, internal: u64) -> bool
    ensures { result ≡ the.is_free_to who.now internal value }
{
    match value {
        Use::Free => true,
        Use::Held(_) => false,
        Use::Resting(last, port) => last == *who && u64::from(port) == internal,
    }
}

/// The use of the port `i` behind one with this use.
fn use_along(i: usize, value: Use) -> Use
    requires { the.internal_of value + i < 65536 }
    ensures { result ≡ the.use_along i value }
{
    match value {
        Use::Free => Use::Free,
        Use::Held(who) => Use::Held(who),
        Use::Resting(last, internal) => Use::Resting(last, internal + i as u16),
    }
}

/// Gives the `n` ports from `start` on the uses of which this is the first.
pub fn paint(each: &mut [Use], start: usize, n: usize, value: Use)
    requires within { start + n ≤ length each.old }
    requires fits { the.internal_of value + n ≤ 65536 }
    ensures { each.new ≡ the.with_run start n value each.old }
{
    for i in 0..n {
        each[start + i] = use_along(i, value);
    }
}
