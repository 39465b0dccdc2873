//! What holds of readings. A proof that needs a law calls its function.
ghost use Rattle.watch_readings.specs.Laws.{OnceIsDump};

use journal_sides::one_journal;

/// What is read of a journal once is what a dump reads of the same octets.
pub fn readings_are_dumps()
    ensures { OnceIsDump }
{
    one_journal();
}
