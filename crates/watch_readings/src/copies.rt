//! Sides that are copied beside whoever writes them.
ghost use Rattle.std.specs.Prelude.{◌≡◌, ◌≤◌, length, min, IfOk};
ghost use Rattle.watch_readings.specs.Copies.{agreed, common, is_still, same_front, sides_of};

use pcp_base::{Memory, Octets};
use std::alloc::Global;

/// What stands in front of a side: its head, its first gate and length, and its Start. With its file it
/// names a life of the side.
#[derive(Drop)]
pub struct Front {
    /// the device of its file, 0 where there is none
    pub device: u64,
    /// the number of its file there, 0 where there is none
    pub inode: u64,
    /// its first octets, at most 28, with the gate
    pub octets: Octets,
}

/// A side that was looked at: its front, two copies of all its octets, one behind the other, and its
/// front again.
#[derive(Drop)]
pub struct SideLook {
    pub before: Front,
    pub first: Octets,
    pub second: Octets,
    pub behind: Front,
}

/// How many octets in front are the same.
#[tactic(auto, using(crate::proofs::CopyLemmas::common_same, crate::proofs::CopyLemmas::common_differs, crate::proofs::CopyLemmas::common_ended))]
fn common(first: &[u8], second: &[u8]) -> usize
    ensures value { result ≡ common first.now second.now }
    ensures within { result ≤ length first.now }
{
    let most = first.len().min(second.len());
    let mut size = 0;
    while size < most {
        if first[size] != second[size] {
            return size;
        }
        size += 1;
    }
    size
}

/// What two copies have in common, and behind it, where they differ, a closed gate.
fn agreed(alloc: Global, first: &[u8], second: &[u8]) -> Result<Octets, Memory>
    ensures { IfOk result (λ text. text ≡ agreed first.now second.now) }
{
    let size = common(first, second);
    let mut text = first[..size].to_vec(alloc)?;
    if size < first.len().max(second.len()) {
        text.push(0)?;
    }
    Ok(Octets::of(text))
}

/// Whether the front is the same.
fn same_front(x: &Front, y: &Front) -> bool
    ensures { result ≡ same_front x.now y.now }
{
    x.device == y.device && x.inode == y.inode && x.octets.items() == y.octets.items()
}

/// What both sides of a journal held at a moment while they were copied; none where the front of one of
/// them changed meanwhile, so that octets of two lives may stand in the copies.
pub fn sides_of(
    alloc: Global,
    a: &SideLook,
    b: &SideLook,
) -> Result<Option<(Octets, Octets)>, Memory>
    ensures { IfOk result (λ sides. sides ≡ sides_of a.now b.now) }
{
    if !same_front(&a.before, &a.behind) {
        return Ok(None);
    }
    if !same_front(&b.before, &b.behind) {
        return Ok(None);
    }
    let octets_a = agreed(alloc, a.first.items(), a.second.items())?;
    let octets_b = agreed(alloc, b.first.items(), b.second.items())?;
    Ok(Some((octets_a, octets_b)))
}
