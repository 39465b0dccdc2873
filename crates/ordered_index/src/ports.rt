//! The lesser of two ports.
ghost use Rattle.std.specs.Prelude.{◌≡◌};
ghost use Rattle.ordered_index.specs.Lesser.{lesser};

/// The lesser of two ports, of which each may be missing.
pub fn lesser(first: Option<u16>, second: Option<u16>) -> Option<u16>
    ensures { result ≡ lesser first second }
{
    match (first, second) {
        (Some(a), Some(b)) => if a <= b { Some(a) } else { Some(b) },
        (Some(a), None) => Some(a),
        (None, b) => b,
    }
}
