//! What a seat at the word's table knows, the rule of the table, and what each step tells.
ghost use Rattle.epoch_word.specs.Rule.{TellsRaise, TellsMoment, TellsShare, joined_word_view, keeper_word_view, newcomer_word_view, spent_word_view};

use atomic_table::{Join, Play, Split, TableRule};

/// What a seat knows. No value of it is made.
pub struct WordView {
    /// The greatest moment that was raised with it.
    pub raised: u64,

    /// The greatest moment that it was told.
    pub heard: u64,

    /// How often it asked the word.
    pub asked: u64,

    /// Its part of the right to raise the word. Without one it may raise nothing.
    pub share: u64,
}

/// The rule of the table. Its key is the first moment.
pub struct WordRule;

impl<S> TableRule<S, WordView, u64> for WordRule {
    ghost use Rattle.epoch_word.specs.Rule.{HasGreatest, first_word_view};

    ghost holds = { λ first. HasGreatest first };

    ghost first = { first_word_view };
}

/// The word is raised.
pub struct Raise;

impl<S> Play<S, WordView> for Raise {
    ghost then = { TellsRaise };
}

/// The word is told.
pub struct Tell;

impl<S> Play<S, WordView> for Tell {
    ghost then = { TellsMoment };
}

/// The seat's share is told to be no more than all there is.
pub struct Weigh;

impl<S> Play<S, WordView> for Weigh {
    ghost then = { TellsShare };
}

/// How a view is split, and how two are joined.
pub struct SplitAndJoin;

impl Split<WordView> for SplitAndJoin {
    ghost left = { keeper_word_view };

    ghost right = { newcomer_word_view };
}

impl Join<WordView> for SplitAndJoin {
    ghost both = { joined_word_view };

    ghost spent = { spent_word_view };
}
