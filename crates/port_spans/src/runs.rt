//! Runs of places.

/// How many places there are: one for each port number of both protocols.
pub const PLACES: usize = 131_072;

/// Places in a row that have one value.
#[derive(Clone, Copy)]
pub struct Run<V> {
    /// The first of them.
    pub first: u32,
    /// How many they are, at least 1.
    pub count: u32,
    /// The value of each.
    pub value: V,
}
