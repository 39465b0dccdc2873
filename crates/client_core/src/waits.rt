//! How long a client waits for an answer (RFC 6887, section 8.1.1; the rounding is our own).
ghost use Rattle.std.specs.Prelude.{◌≡◌, ◌+◌, ◌≤◌, ◌/◌};
ghost use Rattle.client_core.specs.Waits.{next_base, spread, wait_after};

/// The base of the first wait, in milliseconds: IRT of RFC 6887, section 8.1.1.
pub const FIRST_BASE_MS: u64 = 3_000;

/// The longest base of a wait, in milliseconds: MRT of RFC 6887, section 8.1.1.
pub const LONGEST_BASE_MS: u64 = 1_024_000;

/// The longest wait, in milliseconds: a tenth more than the longest base.
pub const LONGEST_WAIT_MS: u64 = 1_126_400;

/// The wait in milliseconds that follows a wait of `previous_ms`, which is 0 for the first: its base, three
/// seconds at first, then twice the wait before and at most [`LONGEST_BASE_MS`], with up to a tenth of it
/// more or less, as the word says (RFC 6887, section 8.1.1).
pub fn next_wait(previous_ms: u64, word: u32) -> u64
    requires { previous_ms ≤ LONGEST_WAIT_MS }
    ensures value { result ≡ wait_after previous_ms word }
    ensures most { result ≤ LONGEST_WAIT_MS }
{
    spread(next_base(previous_ms), u64::from(word % 2001))
}

/// The base of the wait that follows one.
fn next_base(previous_ms: u64) -> u64
    requires { previous_ms ≤ LONGEST_WAIT_MS }
    ensures value { result ≡ next_base previous_ms }
    ensures most { result ≤ LONGEST_BASE_MS }
{
    if previous_ms == 0 {
        return FIRST_BASE_MS;
    }
    (2 * previous_ms).min(LONGEST_BASE_MS)
}

/// The base with up to a tenth of it more, for `k` above 1000, or less, for `k` below.
fn spread(base: u64, k: u64) -> u64
    requires short { base ≤ LONGEST_BASE_MS }
    requires range { k ≤ 2000 }
    ensures value { result ≡ spread base k }
    ensures most { result ≤ base + base / 10 }
{
    let more = base * k.saturating_sub(1000) / 10_000;
    let less = base * 1000u64.saturating_sub(k) / 10_000;
    base + more - less
}
