//! What a node tells of its block of flags, and how two nodes make that of both blocks.

ghost use Rattle.std.specs.Prelude.{◌≡◌, true, false};
ghost use Rattle.port_runs.specs.Nodes.{join, extend, crossing, longest};

/// What the runs of a block are, a block being 64 or more flags from an even place on.
///
/// No run has more than 65,535 flags, since the first of all flags is never set.
#[derive(Clone, Copy, PartialEq, Eq)]
pub struct Node {
    /// How many flags are set from the block's first on.
    pub prefix: u16,
    /// How many flags are set up to the block's last.
    pub suffix: u16,
    /// The longest run that begins at an even place.
    pub even: u16,
    /// The longest run that begins at an odd place.
    pub odd: u16,
    /// Whether all flags are set.
    pub full: bool,
}

/// The node of a block with no flag set.
pub const EMPTY: Node = Node {
    prefix: 0,
    suffix: 0,
    even: 0,
    odd: 0,
    full: false,
};

/// The longest runs across the middle of two blocks, from an even place and from an odd one.
fn crossings(left: Node, right: Node) -> (u16, u16)
    ensures even { result.0 ≡ crossing true left right }
    ensures odd { result.1 ≡ crossing false left right }
{
    let across = left.suffix.saturating_add(right.prefix);
    let shorter = across.saturating_sub(1);
    if left.suffix % 2 == 0 {
        (across, shorter)
    } else {
        (shorter, across)
    }
}

/// A block's run of `own` flags at an end, with the `next` flags beside it where the block is full.
fn extended(full: bool, own: u16, next: u16) -> u16
    ensures { result ≡ extend full own next }
{
    if full { own.saturating_add(next) } else { own }
}

/// The node of two blocks side by side.
#[tactic(auto, unfolding(crate::specs::Nodes::join))]
pub fn joined(left: Node, right: Node) -> Node
    ensures { result ≡ join left right }
{
    let (even, odd) = crossings(left, right);
    Node {
        prefix: extended(left.full, left.prefix, right.prefix),
        suffix: extended(right.full, right.suffix, left.suffix),
        even: left.even.max(right.even).max(even),
        odd: left.odd.max(right.odd).max(odd),
        full: left.full && right.full,
    }
}

/// The longest run of a block that begins with the remainder by 2 that is asked.
#[tactic(auto, unfolding(crate::specs::Nodes::longest))]
pub fn longest_run(node: Node, parity: Option<u8>) -> u32
    ensures { result ≡ longest parity node }
{
    let run = match parity {
        None => node.even.max(node.odd),
        Some(0) => node.even,
        Some(1) => node.odd,
        Some(_) => 0,
    };
    u32::from(run)
}
