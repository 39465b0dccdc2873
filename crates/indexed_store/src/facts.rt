//! What a record makes of the base, the address and the last moment.
ghost use Rattle.std.specs.Prelude.{◌≡◌, ◌||◌, if◌then◌else◌};
ghost use Rattle.pcp_base.specs.Apply as the;

use pcp_base::{Address, Change, Moment, Record};

/// Whether all that was known is gone.
pub(crate) fn empties(change: &Change) -> bool
    ensures { result ≡ the.empties change.now }
{
    matches!(change, Change::Start | Change::Lose)
}

/// Whether the change is a Start.
pub(crate) fn is_start(change: &Change) -> bool
    ensures { result ≡ the.is_start change.now }
{
    matches!(change, Change::Start)
}

/// Whether the record's moment becomes the base.
fn rebases(change: &Change, address: Option<Address>) -> bool
    ensures { result ≡ the.rebases change.now address }
{
    match change {
        Change::Start | Change::Lose => true,
        Change::Renumber(new) => match address {
            Some(known) => *new != known,
            None => false,
        },
        _ => false,
    }
}

/// The base after a record.
pub(crate) fn base_after(kept: &Record, address: Option<Address>, base: Moment) -> Moment
    ensures { result ≡
        if the.rebases kept.now.change address then kept.now.moment else base }
{
    if rebases(&kept.change, address) {
        kept.moment
    } else {
        base
    }
}

/// The address after a change.
pub(crate) fn address_after(change: &Change, address: Option<Address>) -> Option<Address>
    ensures { result ≡ the.address_changed change.now address }
{
    match change {
        Change::Start => None,
        Change::Renumber(new) => Some(*new),
        _ => address,
    }
}
