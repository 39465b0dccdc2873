//! Steps over ties, until when local ports rest, and the pool of them.
ghost use Rattle.std.specs.Prelude.{◌≡◌, ◌<◌, ◌-◌, ◌^◌, length, not, filter, OnOk, OnErr};
ghost use Rattle.std.specs.Bool.{OnTrue, OnFalse};
ghost use Rattle.std.specs.BTreeMap.{values};
ghost use Rattle.std.specs.FinMap.{insert, len};
ghost use Rattle.cascade_ties.specs.Kept.{AreCounted, IsTieTable, ties_of};
ghost use Rattle.cascade_ties.specs.Ties.{MakesTies, MayChange, MayMove, MayTie, is_over, rests_after, spot, still, with_change, with_rest, with_tie, without};

use crate::changes::{append, forget, move_from, replace};
use crate::lookups::{Numbers, client_of};
use crate::rests::{conclude, leave, next_over, port_of_spot, protocol_at, reserve, spot};
use crate::ties::Tied;
use expiry_wheel::Wheel;
use external_pool::Pool;
use external_pool::host_counts::HostCounts;
use ordered_index::place_of;
use pcp_base::{Endpoint, Memory};
use std::alloc::Global;

/// Appends a tie of an endpoint that has none, to a vacant port.
fn put_tie(
    alloc: Global,
    kept: &mut Numbers,
    pool: &mut Pool,
    rests: &Wheel,
    tied: Tied,
) -> Result<(), Memory>
    requires kept { IsTieTable kept.old pool.old rests.now }
    requires may { MayTie (ties_of pool.old rests.now (values kept.old.leases)) tied }
    ensures kept { IsTieTable kept.new pool.new rests.now }
    ensures ties { MakesTies (ties_of pool.old rests.now (values kept.old.leases))
        (with_tie (ties_of pool.old rests.now (values kept.old.leases)) tied) result
        (ties_of pool.new rests.now (values kept.new.leases)) }
{
    let client = tied.tie.client;
    let local = tied.tie.local;
    pool.hold(alloc, &client.address, client.protocol, local, 1)?;
    if let Err(error) = append(kept, tied) {
        pool.release(&client.address, client.protocol, local, 1);
        return Err(error);
    }
    Ok(())
}

/// Appends such a tie, and counts it.
pub(crate) fn put_counted(
    alloc: Global,
    kept: &mut Numbers,
    pool: &mut Pool,
    counts: &mut HostCounts,
    rests: &Wheel,
    tied: Tied,
) -> Result<(), Memory>
    requires kept { IsTieTable kept.old pool.old rests.now }
    requires counted { AreCounted counts.old (values kept.old.leases) }
    requires may { MayTie (ties_of pool.old rests.now (values kept.old.leases)) tied }
    ensures kept { IsTieTable kept.new pool.new rests.now }
    ensures counted { AreCounted counts.new (values kept.new.leases) }
    ensures ties { MakesTies (ties_of pool.old rests.now (values kept.old.leases))
        (with_tie (ties_of pool.old rests.now (values kept.old.leases)) tied) result
        (ties_of pool.new rests.now (values kept.new.leases)) }
{
    let address = tied.tie.client.address;
    counts.raise(&address, 1)?;
    if let Err(error) = put_tie(alloc, kept, pool, rests, tied) {
        counts.lower(&address, 1);
        return Err(error);
    }
    Ok(())
}

/// Puts a tie in the place of its endpoint's, which is to the same local port.
pub(crate) fn change_tie(
    kept: &mut Numbers,
    pool: &Pool,
    rests: &Wheel,
    tied: Tied,
) -> Result<(), Memory>
    requires kept { IsTieTable kept.old pool.now rests.now }
    requires may { MayChange (ties_of pool.now rests.now (values kept.old.leases)) tied }
    ensures kept { IsTieTable kept.new pool.now rests.now }
    ensures ties { MakesTies (ties_of pool.now rests.now (values kept.old.leases))
        (with_change (ties_of pool.now rests.now (values kept.old.leases)) tied) result
        (ties_of pool.now rests.now (values kept.new.leases)) }
{
    let Some(number) = kept.keys.get(&client_of(&tied)).copied() else {
        return Ok(());
    };
    replace(kept, number, tied)
}

/// Puts a tie in the place of its endpoint's, which is to the same local port, and lets the port rest
/// behind it until a time.
pub(crate) fn grant_tie(
    alloc: Global,
    kept: &mut Numbers,
    pool: &Pool,
    rests: &mut Wheel,
    tied: Tied,
    until_ms: u64,
) -> Result<(), Memory>
    requires kept { IsTieTable kept.old pool.now rests.old }
    requires may { MayChange (ties_of pool.now rests.old (values kept.old.leases)) tied }
    requires sometime { until_ms < 2 ^ 64 - 1 }
    ensures kept { IsTieTable kept.new pool.now rests.new }
    ensures ties { MakesTies (ties_of pool.now rests.old (values kept.old.leases))
        (with_rest (with_change (ties_of pool.now rests.old (values kept.old.leases)) tied)
        tied.tie.client.protocol tied.tie.local until_ms) result
        (ties_of pool.now rests.new (values kept.new.leases)) }
{
    let at = spot(tied.tie.client.protocol, tied.tie.local);
    let fresh = reserve(alloc, rests, at, until_ms)?;
    let made = change_tie(kept, pool, rests, tied);
    conclude(rests, at, until_ms, fresh, made.is_ok());
    made
}

/// Puts a tie to a vacant port in the place of its endpoint's, which is to another one.
fn shift_tie(
    alloc: Global,
    kept: &mut Numbers,
    pool: &mut Pool,
    rests: &Wheel,
    from: u16,
    tied: Tied,
) -> Result<(), Memory>
    requires kept { IsTieTable kept.old pool.old rests.now }
    requires may { MayMove (ties_of pool.old rests.now (values kept.old.leases)) from tied }
    ensures kept { IsTieTable kept.new pool.new rests.now }
    ensures ties { MakesTies (ties_of pool.old rests.now (values kept.old.leases))
        (with_change (ties_of pool.old rests.now (values kept.old.leases)) tied) result
        (ties_of pool.new rests.now (values kept.new.leases)) }
{
    let Some(number) = kept.keys.get(&client_of(&tied)).copied() else {
        return Ok(());
    };
    let client = tied.tie.client;
    let local = tied.tie.local;
    pool.hold(alloc, &client.address, client.protocol, local, 1)?;
    if let Err(error) = move_from(kept, number, from, tied) {
        pool.release(&client.address, client.protocol, local, 1);
        return Err(error);
    }
    leave(alloc, pool, rests, &client, from);
    Ok(())
}

/// Puts a tie to a vacant port in the place of its endpoint's, which is to another one, and lets that
/// one rest until a time.
pub(crate) fn move_tie(
    alloc: Global,
    kept: &mut Numbers,
    pool: &mut Pool,
    rests: &mut Wheel,
    from: u16,
    tied: Tied,
    until_ms: u64,
) -> Result<(), Memory>
    requires kept { IsTieTable kept.old pool.old rests.old }
    requires may { MayMove (ties_of pool.old rests.old (values kept.old.leases)) from tied }
    requires sometime { until_ms < 2 ^ 64 - 1 }
    ensures kept { IsTieTable kept.new pool.new rests.new }
    ensures ties { MakesTies (ties_of pool.old rests.old (values kept.old.leases))
        (with_rest (with_change (ties_of pool.old rests.old (values kept.old.leases)) tied)
        tied.tie.client.protocol from until_ms) result
        (ties_of pool.new rests.new (values kept.new.leases)) }
{
    let at = spot(tied.tie.client.protocol, from);
    let fresh = reserve(alloc, rests, at, until_ms)?;
    let made = shift_tie(alloc, kept, pool, rests, from, tied);
    conclude(rests, at, until_ms, fresh, made.is_ok());
    made
}

/// Lets the local port of the tie of an endpoint rest behind it until a time.
pub(crate) fn rest_tie(
    alloc: Global,
    rests: &mut Wheel,
    client: &Endpoint,
    local: u16,
    until_ms: u64,
) -> Result<(), Memory>
    requires { until_ms < 2 ^ 64 - 1 }
    ensures ok { OnOk result
        (rests.new ≡ insert rests.old (spot client.now.protocol local) until_ms) }
    ensures err { OnErr result (rests.new ≡ rests.old) }
{
    let at = spot(client.protocol, local);
    let fresh = reserve(alloc, rests, at, until_ms)?;
    conclude(rests, at, until_ms, fresh, true);
    Ok(())
}

/// Takes out the tie of an endpoint, where it has one, and frees its local port, which then rests
/// where it is to.
pub(crate) fn take_tie(
    alloc: Global,
    kept: &mut Numbers,
    pool: &mut Pool,
    counts: &mut HostCounts,
    rests: &Wheel,
    client: &Endpoint,
)
    requires kept { IsTieTable kept.old pool.old rests.now }
    requires counted { AreCounted counts.old (values kept.old.leases) }
    ensures kept { IsTieTable kept.new pool.new rests.now }
    ensures counted { AreCounted counts.new (values kept.new.leases) }
    ensures ties { ties_of pool.new rests.now (values kept.new.leases)
        ≡ without (ties_of pool.old rests.now (values kept.old.leases)) client.now }
{
    let Some(number) = kept.keys.get(&place_of(client)).copied() else {
        return;
    };
    let tie = kept.leases[&number].tie;
    forget(kept, number, client, &tie);
    leave(alloc, pool, rests, client, tie.local);
    counts.lower(&client.address, 1);
}

/// Takes out a tie whose time has come; false where there is none.
fn drop_one(
    alloc: Global,
    kept: &mut Numbers,
    pool: &mut Pool,
    counts: &mut HostCounts,
    rests: &Wheel,
    now_ms: u64,
) -> bool
    requires kept { IsTieTable kept.old pool.old rests.now }
    requires counted { AreCounted counts.old (values kept.old.leases) }
    ensures kept { IsTieTable kept.new pool.new rests.now }
    ensures counted { AreCounted counts.new (values kept.new.leases) }
    ensures still { still now_ms (ties_of pool.new rests.now (values kept.new.leases))
        ≡ still now_ms (ties_of pool.old rests.now (values kept.old.leases)) }
    ensures fewer { OnTrue result
        (length (values kept.new.leases) < length (values kept.old.leases)) }
    ensures all { OnFalse result
        (filter (λ t. not (is_over now_ms t)) (values kept.new.leases) ≡ values kept.new.leases) }
{
    let Some(number) = kept.leases.one_ended(now_ms) else {
        return false;
    };
    let client = kept.leases[&number].tie.client;
    take_tie(alloc, kept, pool, counts, rests, &client);
    true
}

/// Takes out the ties whose time has come, and frees their local ports.
fn drop_ties(
    alloc: Global,
    kept: &mut Numbers,
    pool: &mut Pool,
    counts: &mut HostCounts,
    rests: &Wheel,
    now_ms: u64,
)
    requires kept { IsTieTable kept.old pool.old rests.now }
    requires counted { AreCounted counts.old (values kept.old.leases) }
    ensures kept { IsTieTable kept.new pool.new rests.now }
    ensures counted { AreCounted counts.new (values kept.new.leases) }
    ensures still { still now_ms (ties_of pool.new rests.now (values kept.new.leases))
        ≡ still now_ms (ties_of pool.old rests.now (values kept.old.leases)) }
    ensures all { filter (λ t. not (is_over now_ms t)) (values kept.new.leases) ≡ values kept.new.leases }
{
    while drop_one(alloc, kept, pool, counts, rests, now_ms) {}
}

/// Ends a rest that is over; false where there is none.
fn wake_one(kept: &Numbers, pool: &mut Pool, rests: &mut Wheel, now_ms: u64) -> bool
    requires { IsTieTable kept.now pool.old rests.old }
    ensures kept { IsTieTable kept.now pool.new rests.new }
    ensures still { still now_ms (ties_of pool.new rests.new (values kept.now.leases))
        ≡ still now_ms (ties_of pool.old rests.old (values kept.now.leases)) }
    ensures fewer { OnTrue result (len rests.new < len rests.old) }
    ensures all { OnFalse result (rests_after now_ms rests.new ≡ rests.new) }
{
    let Some(at) = next_over(rests, now_ms) else {
        return false;
    };
    pool.wake(protocol_at(at), port_of_spot(at));
    true
}

/// Ends the rests that are over.
fn wake_all(kept: &Numbers, pool: &mut Pool, rests: &mut Wheel, now_ms: u64)
    requires { IsTieTable kept.now pool.old rests.old }
    ensures kept { IsTieTable kept.now pool.new rests.new }
    ensures still { still now_ms (ties_of pool.new rests.new (values kept.now.leases))
        ≡ still now_ms (ties_of pool.old rests.old (values kept.now.leases)) }
    ensures all { rests_after now_ms rests.new ≡ rests.new }
{
    while wake_one(kept, pool, rests, now_ms) {}
}

/// Takes out the ties whose time has come, frees their local ports, and ends the rests that are over.
pub(crate) fn drop_over(
    alloc: Global,
    kept: &mut Numbers,
    pool: &mut Pool,
    counts: &mut HostCounts,
    rests: &mut Wheel,
    now_ms: u64,
)
    requires kept { IsTieTable kept.old pool.old rests.old }
    requires counted { AreCounted counts.old (values kept.old.leases) }
    ensures kept { IsTieTable kept.new pool.new rests.new }
    ensures counted { AreCounted counts.new (values kept.new.leases) }
    ensures ties { ties_of pool.new rests.new (values kept.new.leases)
        ≡ still now_ms (ties_of pool.old rests.old (values kept.old.leases)) }
{
    drop_ties(alloc, kept, pool, counts, rests, now_ms);
    wake_all(kept, pool, rests, now_ms);
}
