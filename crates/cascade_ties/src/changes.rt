//! Ties that come, change and go.
ghost use Rattle.std.specs.Prelude.{◌≡◌, ℕ, None, OnOk, OnErr, IsSome};
ghost use Rattle.std.specs.Ordering.{nat_cmp};
ghost use Rattle.std.specs.BTreeMap.{get};
ghost use Rattle.ordered_index.specs.MapSteps.{HasEntry};
ghost use Rattle.ordered_index.specs.Orders.{place_cmp, place_of, port_at, port_cmp};
ghost use Rattle.ordered_index.specs.Steps.{Appends, Replaces, Forgets, Stays};
ghost use Rattle.cascade_ties.specs.Kept.{AreKeptTies, place_of_tie, port_of_tie};

use crate::lookups::{Numbers, client_of, local_of};
use crate::ties::{Tie, Tied};
use ordered_index::{place_of, port_at};
use pcp_base::{Endpoint, Memory};

/// Appends a tie whose client and local port have none. The one error is want of memory, of slots or
/// of numbers, which changes nothing.
pub(crate) fn append(kept: &mut Numbers, tied: Tied) -> Result<(), Memory>
    requires kept { AreKeptTies kept.old }
    requires key { get place_cmp kept.old.keys (place_of_tie tied) ≡ None }
    requires port { get port_cmp kept.old.ports (port_of_tie tied) ≡ None }
    ensures ok { OnOk result ((number : ℕ) × Appends place_cmp port_cmp kept.old kept.new tied
        (place_of_tie tied) (port_of_tie tied) number) }
    ensures err { OnErr result (Stays kept.old kept.new) }
{
    let (client, local) = (client_of(&tied), local_of(&tied));
    kept.append(tied, client, local)?;
    Ok(())
}

/// Writes a tie at a number that has one with its client and local port. The one error is want of
/// memory, which changes nothing.
pub(crate) fn replace(kept: &mut Numbers, number: u64, tied: Tied) -> Result<(), Memory>
    requires there { IsSome (get nat_cmp kept.old.leases number) }
    requires port { HasEntry port_cmp kept.old.ports (port_of_tie tied) number }
    ensures ok { OnOk result (Replaces port_cmp kept.old kept.new number tied
        (port_of_tie tied) (port_of_tie tied)) }
    ensures err { OnErr result (Stays kept.old kept.new) }
{
    let local = local_of(&tied);
    kept.replace(number, tied, (local, local))
}

/// Writes a tie at a number that has one with its client, to another local port. The one error is want
/// of memory, which changes nothing.
pub(crate) fn move_from(
    kept: &mut Numbers,
    number: u64,
    from: u16,
    tied: Tied,
) -> Result<(), Memory>
    requires there { IsSome (get nat_cmp kept.old.leases number) }
    requires port { HasEntry port_cmp kept.old.ports (port_at tied.tie.client.protocol from) number }
    ensures ok { OnOk result (Replaces port_cmp kept.old kept.new number tied
        (port_at tied.tie.client.protocol from) (port_of_tie tied)) }
    ensures err { OnErr result (Stays kept.old kept.new) }
{
    let to = local_of(&tied);
    let from = port_at(tied.tie.client.protocol, from);
    kept.replace(number, tied, (from, to))
}

/// Takes out the tie with a number, of this client and with these terms.
pub(crate) fn forget(kept: &mut Numbers, number: u64, client: &Endpoint, tie: &Tie)
    ensures { Forgets place_cmp port_cmp kept.old kept.new number (place_of client.now)
        (port_at client.now.protocol tie.now.local) }
{
    let local = port_at(client.protocol, tie.local);
    kept.forget(number, place_of(client), local);
}
