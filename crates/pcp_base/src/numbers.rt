//! Decimal numbers in texts.
ghost use Rattle.std.specs.Prelude.{◌≡◌, ℕ, ◌≤◌, ◌⊎◌, ◌↔◌, codes, decimal, slice_index, IsTrue, IfSome, IfNone};
ghost use Rattle.std.specs.Int.{IsInRange};

/// The number that the text writes without a sign or a leading zero, where it is at most `most`; none
/// for every other text.
pub fn read_number(text: &[u8], most: u64) -> Option<u64>
    ensures value { IfSome result (λ n. (text.now ≡ decimal n) × (n ≤ most)) }
    ensures none { IfNone result ((n : ℕ) → n ≤ most → ¬ (text.now ≡ decimal n)) }
{
    if !begins_plainly(text) {
        return None;
    }
    let Ok(plain) = std::str::from_utf8(text) else {
        return None;
    };
    match plain.parse::<u64>() {
        Ok(number) if number <= most => Some(number),
        _ => None,
    }
}

// `parse` also takes a plus and leading zeros.
fn begins_plainly(text: &[u8]) -> bool
    ensures { IsTrue result ↔ ((text.now ≡ codes "0") ⊎ IsInRange 49 57 (slice_index text.now 0)) }
{
    matches!(text, [b'0'] | [b'1'..=b'9', ..])
}
