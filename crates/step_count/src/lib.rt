//! Counted steps: a number that contracts see and that takes no bytes.
#![tactic(auto)]

ghost use Rattle.std.specs.Prelude.{◌≡◌, ◌+◌, ◌<◌};
ghost use Rattle.step_count.specs.Levels.{levels};

pub mod laws;

use std::marker::Model;
use std::sync::ledger::{Blank, Book, Ledger, Share};

/// How many steps were taken. It takes no bytes, and only `tick` and `take` change it.
///
/// A caller that counts nothing calls a function over a ledger `L` with `Blank::new(1)`, and makes
/// its counter there by `Steps::begin`.
#[derive(Drop)]
pub struct Steps<L: Ledger> {
    book: Book<L>,
    share: Share<L>,
}

impl<L: Ledger> Model for Steps<L> {
    ghost use Rattle.std.specs.Prelude.{ℕ, ◌<◌};

    ghost Value = { ℕ };

    ghost view = { λ s. s.book.total };

    ghost invariant = { λ s. 0 < s.share.parts };
}

impl<L: Ledger> Steps<L> {
    /// A counter that stands at 0.
    pub fn begin(blank: Blank) -> Steps<L>
        requires name { blank.name ≡ L.name }
        requires parts { blank.parts ≡ L.parts }
        requires some { 0 < L.parts }
        ensures { result ≡ 0 }
    {
        let (book, share) = blank.open::<L>();
        Steps { book, share }
    }

    /// Takes one step.
    pub fn tick(&mut self)
        ensures { self.new ≡ self.old + 1 }
    {
        self.book.add(&mut self.share, 1);
    }

    /// Takes `count` steps at once.
    pub fn take(&mut self, count: u64)
        ensures { self.new ≡ self.old + count }
    {
        self.book.add(&mut self.share, count);
    }
}

/// How many binary digits a count has: the steps of one look-up among so many, 0 among none.
pub fn levels(count: usize) -> u64
    ensures { result ≡ levels count }
{
    u64::from(usize::BITS - count.leading_zeros())
}

#[cfg(test)]
mod tests {
    use super::*;
    use std::marker::Brand;

    /// Takes three steps.
    fn take_three<L: Ledger>(steps: &mut Steps<L>)
        ensures { steps.new ≡ steps.old + 3 }
    {
        steps.tick();
        steps.tick();
        steps.tick();
    }

    /// Takes three steps at once.
    fn take_at_once<L: Ledger>(steps: &mut Steps<L>)
        ensures { steps.new ≡ steps.old + 3 }
    {
        steps.take(3);
    }

    /// Begins to count, and counts to six.
    fn count_six<L: Ledger>(blank: Blank)
        requires name { blank.name ≡ L.name }
        requires parts { blank.parts ≡ L.parts }
        requires some { 0 < L.parts }
    {
        let mut steps = Steps::<L>::begin(blank);
        take_three(&mut steps);
        take_at_once(&mut steps);
    }

    #[test]
    fn counts() {
        count_six::<Brand>(Blank::new(1));
    }

    /// Counts and how many binary digits they have.
    static DIGITS: [(usize, u64); 9] = [
        (0, 0),
        (1, 1),
        (2, 2),
        (3, 2),
        (4, 3),
        (7, 3),
        (8, 4),
        (255, 8),
        (256, 9),
    ];

    /// The first row whose count has another number of digits.
    fn first_other() -> Option<usize> {
        DIGITS
            .iter()
            .position(|(count, digits)| levels(*count) != *digits)
    }

    #[test]
    fn levels_are_binary_digits(rt: HostRuntime) {
        assert!(rt; first_other() == None);
    }
}
