//! The first octets of a side.
ghost use Rattle.std.specs.Prelude.{◌≡◌, ◌↔◌, ℕ, IsTrue, IfSome, IfNone};
ghost use Rattle.journal_sides.specs.declared.formats.Format.{Format};
ghost use Rattle.journal_sides.specs.Formats.{HasNext};
ghost use Rattle.journal_sides.specs.Heads.{IsHead};
ghost use Rattle.journal_sides.specs.Sides.{head_text};
ghost use Rattle.journal_sides.specs.Writes.{side_parity};

use crate::formats::Format;
use crate::layout::SIDE_HEAD;
use crate::sides::Side;

/// The open gate, the letters `PCPJ`, the format and the generation.
pub(crate) fn head_of(format: Format, generation: u64) -> [u8; SIDE_HEAD]
    ensures { result ≡ head_text format generation }
{
    let [a, b, c, d, e, f, g, h] = generation.to_be_bytes();
    [
        1,
        b'P',
        b'C',
        b'P',
        b'J',
        format.octet(),
        a,
        b,
        c,
        d,
        e,
        f,
        g,
        h,
    ]
}

/// Whether a side of this format may have this generation.
fn has_next(format: Format, generation: u64) -> bool
    ensures { IsTrue result ↔ HasNext format generation }
{
    match format {
        Format::First => generation < u64::MAX,
        Format::Second => true,
    }
}

fn is_same(a: &[u8; SIDE_HEAD], b: &[u8; SIDE_HEAD]) -> bool
    ensures { IsTrue result ↔ (a.now ≡ b.now) }
{
    a == b
}

/// The format and the generation that an open side tells, if a side may have them.
pub(crate) fn read_head(side: Side, head: &[u8; SIDE_HEAD]) -> Option<(Format, u64)>
    ensures found { IfSome result (λ told. IsHead (side_parity side) head.now told.0 told.1) }
    ensures none { IfNone result
        ((format : Format) (generation : ℕ)
        → ¬ (IsHead (side_parity side) head.now format generation)) }
{
    let [.., f, a, b, c, d, e, x, y, z] = *head;
    let format = Format::of(f)?;
    let generation = u64::from_be_bytes([a, b, c, d, e, x, y, z]);
    if generation % 2 != side.parity() {
        return None;
    }
    if !has_next(format, generation) {
        return None;
    }
    if !is_same(&head_of(format, generation), head) {
        return None;
    }
    Some((format, generation))
}
