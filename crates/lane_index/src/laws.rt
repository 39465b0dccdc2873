//! What is found in the cells of an index, what lookups depend on, and who knows what of an index.
ghost use Rattle.lane_index.specs.CellLaws.{LooksAreTheTables};
ghost use Rattle.lane_index.specs.Laws.{LooksDependOnTables, NobodyKnowsMore};

/// What is found in cells that stand for a table is what the table tells.
pub(crate) fn looks_are_the_tables()
    ensures { LooksAreTheTables }
{}

/// After any records a lookup depends on the table and the last moment of the state before them
/// alone.
pub fn looks_depend_on_tables()
    ensures { LooksDependOnTables }
{}

/// By the rule of the copies nobody knows of a record that the shown copy hasn't: whatever a lookup
/// has seen begins what is published.
pub fn nobody_knows_more()
    ensures { NobodyKnowsMore }
{}
