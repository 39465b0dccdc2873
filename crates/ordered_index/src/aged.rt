//! Leases that have left what they are looked up by, beside those that haven't.

ghost use Rattle.std.specs.Prelude.{IfOk};
ghost use Rattle.ordered_index.specs.Aged.{AreBoth, AreNumbersOf};

use crate::expires::Expires;
use crate::slots::Slots;
use std::alloc::AllocError;
use std::collections::BTreeMap;

/// The numbers of leases and of those that have left, in order, which are gathered and sorted for
/// the call. The one error is want of memory.
pub fn numbers_of_both<L: Expires + Drop, T>(
    leases: &Slots<L>,
    past: &BTreeMap<u64, T>,
) -> Result<Vec<u64>, AllocError>
    requires { AreBoth leases.now past.now }
    ensures { IfOk result (λ numbers. AreNumbersOf leases.now past.now numbers.items) }
{
    let mut numbers = leases.numbers()?;
    numbers.reserve(past.len())?;
    for number in past.keys() {
        numbers.push(*number)?;
    }
    numbers.sort_unstable();
    Ok(numbers)
}
