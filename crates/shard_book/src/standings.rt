//! What a book found in its journal after a call was refused.

use pcp_base::Record;

/// What the journal has of a call that was refused.
#[derive(Clone, Copy, Debug, PartialEq, Eq)]
pub enum Standing {
    /// No call was refused.
    Clean,
    /// The call answered `Disk`, and the journal has all its records.
    In,
    /// The journal has none of its records.
    Out,
    /// The journal stood for something else. It begins anew with this record, a Start or a Lose, and
    /// no lease is left.
    Fresh(Record),
}

/// What settling a book found and appended.
#[derive(Clone, Copy, Debug, PartialEq, Eq)]
pub struct Settled {
    pub journal: Standing,
    /// The Renumber that was appended, if any.
    pub address: Option<Record>,
}
