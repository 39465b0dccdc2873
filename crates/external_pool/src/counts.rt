//! How many ports hosts hold, by an ordered map.

ghost use Rattle.std.specs.Prelude.{◌≡◌, ◌+◌, ◌-◌, ◌≤◌, ◌<◌, ◌^◌, ℕ, List, IfOk, OnOk, OnErr, if◌then◌else◌};
ghost use Rattle.std.specs.Str.{bytes_eq};
ghost use Rattle.external_pool.specs.HeldCounts.{in_others};

use crate::hosts::Host;
use pcp_base::Memory;
use std::collections::BTreeMap;

/// How many ports a host holds.
pub fn count_of(counts: &BTreeMap<Host, u32>, host: &Host) -> u32
    ensures { result ≡ in_others counts.now.entries host.now }
{
    counts.get(host).copied().unwrap_or(0)
}

/// Counts `n` more, and tells how many there are now.
pub fn raise(counts: &mut BTreeMap<Host, u32>, host: Host, n: u32) -> Result<u32, Memory>
    requires { in_others counts.old.entries host + n < 2 ^ 32 }
    ensures count { IfOk result (λ count. count ≡ in_others counts.old.entries host + n) }
    ensures ok { OnOk result ((other : List ℕ) → in_others counts.new.entries other
        ≡ in_others counts.old.entries other + (if bytes_eq host other then n else 0)) }
    ensures err { OnErr result ((other : List ℕ) →
        in_others counts.new.entries other ≡ in_others counts.old.entries other) }
{
    if let Some(count) = counts.get_mut(&host) {
        *count += n;
        return Ok(*count);
    }
    counts.insert(host, n)?;
    Ok(n)
}

/// Counts `n` fewer of a host, and tells how many are left; 0 where it isn't counted.
fn lessen(counts: &mut BTreeMap<Host, u32>, host: &Host, n: u32) -> u32
    requires { n ≤ in_others counts.old.entries host.now }
    ensures left { result ≡ in_others counts.old.entries host.now - n }
    ensures counted { (other : List ℕ) → in_others counts.new.entries other
        ≡ (if bytes_eq host.now other then result else in_others counts.old.entries other) }
{
    let Some(count) = counts.get_mut(host) else {
        return 0;
    };
    *count -= n;
    *count
}

/// Counts `n` fewer, and forgets a host that holds none.
pub fn lower(counts: &mut BTreeMap<Host, u32>, host: &Host, n: u32)
    requires { n ≤ in_others counts.old.entries host.now }
    ensures { (other : List ℕ) → in_others counts.new.entries other
        ≡ in_others counts.old.entries other - (if bytes_eq host.now other then n else 0) }
{
    if lessen(counts, host, n) == 0 {
        counts.remove(host);
    }
}
