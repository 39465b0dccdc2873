//! What the word is.
ghost use Rattle.epoch_word.specs.Laws.{WordIsGreatest, WordWasRaised, NoneHeardMore, SharesAreWhole};

/// The word is the greatest of the first moment and all that seats have raised, one with a share
/// raised it, and no seat was told of a greater one. All shares together are what the first seat had:
/// where known seats have it all, no other can raise the word.
pub fn word_is_the_greatest()
    ensures greatest { WordIsGreatest }
    ensures raised { WordWasRaised }
    ensures heard { NoneHeardMore }
    ensures shares { SharesAreWhole }
{}
