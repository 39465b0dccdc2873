//! What holds of what is told. A proof that needs a law calls its function.
ghost use Rattle.journal_watch.specs.Laws.{DoubtChangesNothing, EachRecordOnce, LinesComeToShown, LivesAreTakenWhole, LivesAreTold, LivesGoOn, LossesAreTold, MapsAreTold, NamesAreTold, PeersAreTold, RecordsAreFollowed};

/// What is told of a change makes of what is shown what the change makes of the table: a grant or a
/// renewal, a loss of all, another address.
pub fn changes_are_told()
    ensures maps { MapsAreTold }
    ensures peers { PeersAreTold }
    ensures losses { LossesAreTold }
    ensures names { NamesAreTold }
{}

/// At each reading the lines make of what was shown what is shown then, whatever was read; one in doubt
/// tells of no record. In one life each record is told once and in order; another life is taken whole.
pub fn readings_are_told()
    ensures lines { LinesComeToShown }
    ensures doubt { DoubtChangesNothing }
    ensures followed { RecordsAreFollowed }
    ensures once { EachRecordOnce }
    ensures whole { LivesAreTakenWhole }
    ensures goes { LivesGoOn }
    ensures told { LivesAreTold }
{}
