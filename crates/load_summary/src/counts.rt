//! How the requests of a load count.
ghost use Rattle.std.specs.Prelude.{◌≡◌, ◌-◌, ◌<◌, ◌^◌, ◌++◌, List, [], ◌∷◌, length};
ghost use Rattle.load_summary.specs.declared.counts.LoadKind.{LoadKind};
ghost use Rattle.load_summary.specs.Counts.{AreCountsOf};

/// How a request of a load counts.
#[derive(Clone, Copy, Debug, PartialEq, Eq)]
pub enum LoadKind {
    /// A lease was granted.
    Granted,
    /// A lease was renewed.
    Renewed,
    /// A lease was deleted.
    Deleted,
    /// There was no lease to delete.
    Absent,
    /// The request was refused.
    Refused,
}

/// How many requests there were, and how many of each kind.
#[derive(Clone, Copy, Debug, PartialEq, Eq)]
pub struct LoadCounts {
    pub requests: u32,
    pub granted: u32,
    pub renewed: u32,
    pub deleted: u32,
    pub absent: u32,
    pub refused: u32,
}

impl LoadCounts {
    /// No request yet.
    pub fn none() -> LoadCounts
        ensures { AreCountsOf result [] }
    {
        LoadCounts {
            requests: 0,
            granted: 0,
            renewed: 0,
            deleted: 0,
            absent: 0,
            refused: 0,
        }
    }

    /// One request more, of this kind; there are fewer than 2^32 - 1 before.
    pub fn with(self, kind: LoadKind) -> LoadCounts
        requires { (kinds : List LoadKind) × AreCountsOf self kinds × (length kinds < 2 ^ 32 - 1) }
        ensures { (kinds : List LoadKind) → AreCountsOf self kinds
            → AreCountsOf result (kinds ++ kind ∷ []) }
    {
        let mut counts = self;
        counts.requests += 1;
        match kind {
            LoadKind::Granted => counts.granted += 1,
            LoadKind::Renewed => counts.renewed += 1,
            LoadKind::Deleted => counts.deleted += 1,
            LoadKind::Absent => counts.absent += 1,
            LoadKind::Refused => counts.refused += 1,
        }
        counts
    }
}
