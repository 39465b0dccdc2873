//! An id with its expiry, and the order in which pairs fall due.

ghost use Rattle.std.specs.Prelude.{◌≡◌};
ghost use Rattle.expiry_wheel.specs.Order.{is_sooner, sooner};

#[derive(Clone, Copy, Debug, PartialEq, Eq)]
pub struct Pair {
    pub expiry: u64,
    pub id: u32,
}

impl Pair {
    /// Whether this pair falls due before the other: by expiry, and then by id.
    fn is_sooner(&self, other: &Pair) -> bool
        ensures { result ≡ is_sooner self.now other.now }
    {
        self.expiry < other.expiry || (self.expiry == other.expiry && self.id < other.id)
    }
}

/// The one of two that falls due first, if there is one.
pub fn sooner(a: Option<Pair>, b: Option<Pair>) -> Option<Pair>
    ensures { result ≡ sooner a b }
{
    match (a, b) {
        (Some(p), Some(q)) => Some(if q.is_sooner(&p) { q } else { p }),
        (Some(p), None) => Some(p),
        (None, b) => b,
    }
}
