//! What the texts of records are to one another.
ghost use Rattle.lease_records.specs.RecordTexts.{OneText};

/// One record has one text, and no text of a record begins the text of another: what was written is
/// read again, whatever follows it.
pub fn one_text()
    ensures { OneText }
{}
