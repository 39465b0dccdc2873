//! The filters of a mapping: which remote peers may send to it (RFC 6887, section 13.3).
#![tactic(auto)]

ghost use Rattle.std.specs.Prelude.{◌≡◌, ◌||◌, ◌<◌, ◌≤◌, length, IfOk, IfErr};
ghost use Rattle.std.specs.List.{list_any};
ghost use Rattle.pcp_base.specs.declared.leases.TheConstants.{MOST_FILTERS};
ghost use Rattle.filter_rules.specs.Filters.{allows, fold_filters, is_for, same_filter};

use pcp_base::{Address, Filter, Filters, MOST_FILTERS, Prefix};
use thiserror::Error;

#[cfg(test)]
mod tests;

/// Too many filters for one mapping: this many, more than [`MOST_FILTERS`].
#[derive(Clone, Copy, Debug, PartialEq, Eq, Error)]
#[error("more than 8 filters")]
pub struct Excess(pub usize);

/// The filters of a mapping after those of a request, in order: one of prefix length 0 empties the
/// list, any other is added unless it is there. Where more than [`MOST_FILTERS`] are left there are too
/// many; how many there are on the way doesn't count.
pub fn fold_filters(old: &Filters, new: &[Filter]) -> Result<Filters, Excess>
    ensures folded { IfOk result (λ filters. filters ≡ fold_filters old.now new.now) }
    ensures few { IfOk result (λ filters. length (fold_filters old.now new.now) ≤ MOST_FILTERS) }
    ensures counted { IfErr result (λ excess. excess.0 ≡ length (fold_filters old.now new.now)) }
    ensures many { IfErr result (λ excess. MOST_FILTERS < length (fold_filters old.now new.now)) }
{
    let (folded, count) = folded_and_count(old, new);
    if count > MOST_FILTERS {
        return Err(Excess(count));
    }
    Ok(folded)
}

/// The folded filters, where they are at most [`MOST_FILTERS`], and how many they are.
fn folded_and_count(old: &Filters, new: &[Filter]) -> (Filters, usize)
    ensures count { result.1 ≡ length (fold_filters old.now new.now) }
    ensures folded { result.1 ≤ MOST_FILTERS → result.0 ≡ fold_filters old.now new.now }
{
    let mut base = *old;
    let mut from = 0;
    let mut folded = *old;
    let mut count = old.items().len();
    for (i, filter) in new.iter().enumerate() {
        if filter.prefix == 0 {
            base = Filters::none();
            from = i + 1;
            folded = Filters::none();
            count = 0;
        } else if !is_in_either(filter, base.items(), &new[from..i]) {
            let _has_room = folded.push(*filter);
            count += 1;
        }
    }
    (folded, count)
}

/// Whether the filter is one of these, or of those.
fn is_in_either(filter: &Filter, these: &[Filter], those: &[Filter]) -> bool
    ensures { result ≡ (list_any (same_filter filter.now) these.now
        || list_any (same_filter filter.now) those.now) }
{
    is_among(filter, these) || is_among(filter, those)
}

/// Whether the filter is one of these.
fn is_among(filter: &Filter, filters: &[Filter]) -> bool
    ensures { result ≡ list_any (same_filter filter.now) filters.now }
{
    filters.iter().any(|other| is_same(filter, other))
}

/// Whether the filters are equal, with all bits of their addresses.
fn is_same(filter: &Filter, other: &Filter) -> bool
    ensures { result ≡ same_filter filter.now other.now }
{
    filter.prefix == other.prefix && filter.port == other.port && filter.remote == other.remote
}

/// Whether a remote peer may send: where there are no filters, or one of them has its port or every port
/// and holds its address.
pub fn allows(filters: &Filters, remote: &Address, port: u16) -> bool
    ensures { result ≡ allows filters.now remote.now port }
{
    let items = filters.items();
    items.is_empty() || is_one_for(items, remote, port)
}

/// Whether one of the filters is for this remote peer.
fn is_one_for(filters: &[Filter], remote: &Address, port: u16) -> bool
    ensures { result ≡ list_any (is_for remote.now port) filters.now }
{
    filters.iter().any(|filter| is_for(filter, remote, port))
}

/// Whether the filter is for this remote peer: it has its port or every port, and holds its address.
fn is_for(filter: &Filter, remote: &Address, port: u16) -> bool
    ensures { result ≡ is_for remote.now port filter.now }
{
    let prefix = Prefix {
        bits: filter.prefix,
        address: filter.remote,
    };
    (filter.port == 0 || filter.port == port) && prefix.holds(remote)
}
