//! What a change makes of the base and the address.
ghost use Rattle.std.specs.Prelude.{◌≡◌, ◌↔◌, if◌then◌else◌, IsTrue};
ghost use Rattle.pcp_base.specs.Apply.{empties, is_start, rebases as becomes_base, address_changed};
ghost use Rattle.pcp_base.specs.Fits.{IsOfFirst};

use pcp_base::{Address, Change, Moment, Record};

/// Whether all that was known is gone.
pub(crate) fn is_loss(change: &Change) -> bool
    ensures { result ≡ empties change.now }
{
    matches!(change, Change::Start | Change::Lose)
}

/// Whether the change is a Start.
pub(crate) fn begins(change: &Change) -> bool
    ensures { result ≡ is_start change.now }
{
    matches!(change, Change::Start)
}

/// Whether the first format has such a change.
pub(crate) fn is_of_first(change: &Change) -> bool
    ensures { IsTrue result ↔ IsOfFirst change.now }
{
    !matches!(change, Change::Rest(..) | Change::Renumber(_))
}

/// Whether the record's moment becomes the base.
fn rebases(change: &Change, address: Option<Address>) -> bool
    ensures { result ≡ becomes_base change.now address }
{
    match change {
        Change::Start | Change::Lose => true,
        Change::Renumber(new) => match address {
            Some(known) => *new != known,
            None => false,
        },
        _ => false,
    }
}

/// The base after a record.
pub(crate) fn base_after(kept: &Record, address: Option<Address>, base: Moment) -> Moment
    ensures { result ≡ if becomes_base kept.now.change address then kept.now.moment else base }
{
    if rebases(&kept.change, address) {
        kept.moment
    } else {
        base
    }
}

/// The address after a change.
pub(crate) fn address_after(change: &Change, address: Option<Address>) -> Option<Address>
    ensures { result ≡ address_changed change.now address }
{
    match change {
        Change::Start => None,
        Change::Renumber(new) => Some(*new),
        _ => address,
    }
}
