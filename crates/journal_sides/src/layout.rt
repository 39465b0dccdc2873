//! The sizes of sides and frames, in octets but for the number of records.

/// How many records a frame has at most. It has at least one.
pub const MOST_RECORDS: usize = 16;

/// How many records an append may take, in as many frames as they need.
pub const MOST_APPENDED: usize = 128;

/// How long the records of a frame are at most.
pub(crate) const MOST_FRAMED: usize = 4096;

/// How long a frame is at most: its gate, its length, and its records.
pub(crate) const LONGEST_FRAME: usize = 4101;

/// What stands around the records of a frame: its length, and the gate of the next.
pub(crate) const FRAME_ENDS: usize = 5;

/// What stands in front of the gate of a side's first frame.
pub(crate) const SIDE_HEAD: usize = 14;

/// How long an open side is at least: that, and the gate of its first frame.
pub const SHORTEST_SIDE: usize = 15;
