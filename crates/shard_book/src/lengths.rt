//! The size of a journal, in octets.

/// How long a side may be that isn't compacted at the beginning of a batch. A longer one may be
/// twice as long as the last opening or compaction left it.
pub(crate) const LONGEST_SIDE: u64 = 1_048_576;

const _: () = prove!(LONGEST_SIDE == 1 << 20);
