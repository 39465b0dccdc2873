//! Flags of free ports, one for each of the 65,536 numbers of 16 bits.

ghost use Rattle.std.specs.Prelude.{◌≡◌, ℕ, ◌+◌, ◌<◌, ◌≤◌, ◌↔◌, false, length, IsTrue, if◌then◌else◌, IfSome, IfNone, ◌%◌, nat_le, nat_lt, ◌&&◌, ◌-◌, replicate, IfOk, slice_index_or, vec_len};
ghost use Rattle.port_runs.specs.Flags.{IsMarked, FitsFlags, HasSetRun, IsSetCountAt};
ghost use Rattle.port_runs.specs.Ports.{HasParity, IsLeast, IsGreatest};

use std::alloc::{AllocError, Global};

/// How many flags there are: one for each number of 16 bits.
pub const FLAGS: usize = 65536;

/// `count` flags, none of which is set.
pub fn cleared(alloc: Global, count: usize) -> Result<Vec<bool>, AllocError>
    ensures all { IfOk result (λ flags. vec_len flags ≡ count) }
    ensures clear { IfOk result (λ flags. (i : ℕ) → slice_index_or flags.items i false ≡ false) }
{
    let flags = vec![in alloc; false; count]?;
    Ok(flags)
}

/// How many flags are set from `start` on, up to `most`.
pub fn run_at(flags: &[bool], start: usize, most: u32) -> u32
    requires { start < FLAGS }
    ensures { IsSetCountAt flags.now start most result }
{
    let mut count = 0;
    while count < most {
        let place = start + count as usize;
        if place >= flags.len() || !flags[place] {
            return count;
        }
        count += 1;
    }
    count
}

/// Sets or clears the flags from `from` up to `to`, which isn't among them.
pub fn mark(flags: &mut [bool], from: usize, to: usize, value: bool)
    requires ordered { from ≤ to }
    requires within { to ≤ length flags.old }
    ensures { IsMarked from to value flags.old flags.new }
{
    for place in from..to {
        flags[place] = value;
    }
}

/// Whether `number` has the remainder by 2 that is asked, if one is.
pub fn has_parity(number: usize, parity: Option<u8>) -> bool
    ensures { IsTrue result ↔ HasParity parity number }
{
    match parity {
        Some(remainder) => number % 2 == remainder as usize,
        None => true,
    }
}

/// Whether `n` flags are set from `start` on, and `start` has the remainder by 2 that is asked.
pub fn fits_at(flags: &[bool], start: usize, n: u32, parity: Option<u8>) -> bool
    requires { start < FLAGS }
    ensures { IsTrue result ↔ FitsFlags flags.now n parity start }
{
    has_parity(start, parity) && run_at(flags, start, n) == n
}

/// The least place from which `n` flags are set and that has the remainder by 2 that is asked.
pub fn first_run(flags: &[bool], n: u32, parity: Option<u8>) -> Option<u16>
    requires some { 1 ≤ n }
    requires small { length flags.now ≤ FLAGS }
    ensures { IsLeast (FitsFlags flags.now n parity) result }
{
    for start in 0..flags.len() {
        if fits_at(flags, start, n, parity) {
            return Some(start as u16);
        }
    }
    None
}

/// How many flags the longest run has that begins with the remainder by 2 that is asked.
pub fn longest_run(flags: &[bool], parity: Option<u8>) -> u32
    requires small { length flags.now ≤ FLAGS }
    ensures { IsGreatest (HasSetRun flags.now parity) result }
{
    let mut longest = 0;
    let mut run = 0;
    for start in (0..flags.len()).rev() {
        run = if flags[start] { run + 1 } else { 0 };
        if has_parity(start, parity) && run > longest {
            longest = run;
        }
    }
    longest
}
