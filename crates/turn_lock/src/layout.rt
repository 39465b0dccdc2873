//! What a turn's table keeps where, and how much room its passes have.

/// The word that counts the entries noted, modulo 2^64.
pub(crate) const HISTORY: usize = 0;

/// The word that counts the tickets drawn, modulo 2^64.
pub(crate) const TICKET: usize = 1;

/// The word that counts the turns that are over, modulo 2^64.
pub(crate) const SERVING: usize = 2;

/// The slot of the value.
pub(crate) const VALUE: usize = 0;

/// How many passes may come of the first one, itself among them.
pub(crate) const FIRST_ROOM: u64 = u64::MAX;

/// How many passes may come of one that was split off another with more than twice as many.
pub(crate) const NEW_ROOM: u64 = 1 << 32;
