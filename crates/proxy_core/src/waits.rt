//! The requests that wait for an answer from upstream.
ghost use Rattle.std.specs.Prelude.{◌≡◌, ◌≤◌, ◌<◌, ◌-◌, false, length, OnOk, OnErr};
ghost use Rattle.std.specs.Bool.{OnTrue, OnFalse};
ghost use Rattle.lru.specs.LruCache.{lru_cache};
ghost use Rattle.proxy_core.specs.Waits.{is_full, kept, others, still};
ghost use Rattle.proxy_core.specs.WaitOrder.{IsLatestFirst};

use crate::keys::WaitingKey;
use lru::LruCache;
use pcp_base::{Address, Memory, Octets};

/// How many requests may wait at once.
pub const MOST_WAITING: usize = 4_096;

/// How long a request waits for its answer, in milliseconds.
pub const WAIT_MS: u64 = 60_000;

/// A request that waits for its answer from upstream.
#[derive(Debug, Drop)]
pub struct Waiting {
    /// The address of the client that asked.
    pub client: Address,
    /// The client's UDP port.
    pub port: u16,
    /// The door by which the request came, and by which its reply leaves.
    pub door: u8,
    /// The request as the client sent it.
    pub request: Octets,
    /// Whether the relay added THIRD_PARTY to it.
    pub added: bool,
    /// When it was asked last, in milliseconds.
    pub since_ms: u64,
}

/// The requests that wait, by their keys, the one that was asked last first. A look takes no longer
/// where more wait.
pub(crate) type Waits = LruCache<WaitingKey, Waiting>;

/// Whether [`MOST_WAITING`] others wait.
pub(crate) fn is_full(waits: &Waits, key: &WaitingKey) -> bool
    ensures { result ≡ is_full key.now waits.now.entries }
{
    waits.len() - usize::from(waits.contains(key)) >= MOST_WAITING
}

/// Keeps a request, in the place of the one under its key. After `Memory` nothing has changed.
pub(crate) fn keep(waits: &mut Waits, key: WaitingKey, waiting: Waiting) -> Result<(), Memory>
    requires room { is_full key waits.old.entries ≡ false }
    requires most { waits.old.cap ≡ MOST_WAITING }
    ensures ok { OnOk result (waits.new
        ≡ lru_cache (kept key waiting waits.old.entries) waits.old.cap) }
    ensures err { OnErr result (waits.new ≡ waits.old) }
{
    waits.put(key, waiting)?;
    Ok(())
}

/// Takes out the request that was asked first, where it has waited for its whole time; false where
/// it hasn't, or none waits.
fn drop_one(waits: &mut Waits, now_ms: u64) -> bool
    requires { IsLatestFirst now_ms waits.old.entries }
    ensures order { IsLatestFirst now_ms waits.new.entries }
    ensures still { still now_ms waits.new.entries ≡ still now_ms waits.old.entries }
    ensures most { waits.new.cap ≡ waits.old.cap }
    ensures fewer { OnTrue result (length waits.new.entries < length waits.old.entries) }
    ensures all { OnFalse result (still now_ms waits.new.entries ≡ waits.new.entries) }
{
    let Some((_, oldest)) = waits.peek_lru() else {
        return false;
    };
    if now_ms.saturating_sub(oldest.since_ms) < WAIT_MS {
        return false;
    }
    waits.pop_lru();
    true
}

/// Takes out the requests that have waited for their whole time, and counts them.
pub(crate) fn drop_over(waits: &mut Waits, now_ms: u64) -> u32
    requires order { IsLatestFirst now_ms waits.old.entries }
    requires most { waits.old.cap ≡ MOST_WAITING }
    ensures still { waits.new ≡ lru_cache (still now_ms waits.old.entries) waits.old.cap }
    ensures count { result
        ≡ length waits.old.entries - length (still now_ms waits.old.entries) }
{
    let before = waits.len();
    drop_all(waits, now_ms);
    (before - waits.len()) as u32
}

fn drop_all(waits: &mut Waits, now_ms: u64)
    requires { IsLatestFirst now_ms waits.old.entries }
    ensures { waits.new ≡ lru_cache (still now_ms waits.old.entries) waits.old.cap }
{
    while drop_one(waits, now_ms) {}
}
