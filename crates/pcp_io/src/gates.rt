//! Where workers may be held.

/// Holds a worker, so that a test may say what comes first.
pub trait Gate {
    /// Is called by the worker of this shard before each of its calls of the house.
    fn pause(&self, shard: u32);
}

/// A gate that holds nobody.
#[derive(Clone, Copy)]
pub struct NoGate;

impl Gate for NoGate {
    fn pause(&self, _shard: u32) {}
}
