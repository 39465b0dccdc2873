//! What each external address needs, made before a pass of the house is moved.
ghost use Rattle.std.specs.Prelude.{◌≡◌, ◌+◌, ◌<◌, ◌≤◌, ◌∷◌, [], length, vec_capacity, vec_len, IfOk};
ghost use Rattle.request_workers.specs.Seats.{AddsSeats, ArePasses, AreSeats, IsSeat, Seats};

use crossbeam_utils::sync::{Parker, Unparker};
use job_dispatch::Port;
use job_queue::{Batch, JobQueue, Putter, Taker};
use job_workers::{Desk, JobHouse, TallyRow};
use pcp_base::{Config, Memory};
use std::alloc::Global;

/// All that takes memory of what an external address needs.
#[derive(Drop)]
pub struct Seat {
    pub queue: JobQueue,
    pub putter: Putter,
    pub taker: Taker,
    pub batch: Batch,
    /// where its worker sleeps
    pub parker: Parker,
    /// wakes its worker
    pub unparker: Unparker,
}

impl Seat {
    /// A seat of this external address, for which nothing was put.
    pub fn new(alloc: Global, config: &Config, shard: u32) -> Result<Seat, Memory>
        ensures { IfOk result (λ seat. IsSeat config.now shard seat) }
    {
        let (queue, putter, taker) = JobQueue::new(alloc, config, shard)?;
        let batch = Batch::new(alloc)?;
        let parker = Parker::new(alloc)?;
        let unparker = parker.unparker().clone()?;
        Ok(Seat {
            queue,
            putter,
            taker,
            batch,
            parker,
            unparker,
        })
    }
}

/// Adds seats of the external addresses from this one on.
pub fn add_seats(
    alloc: Global,
    config: &Config,
    shard: u32,
    count: u32,
    seats: &mut Vec<Seat>,
) -> Result<(), Memory>
    requires range { shard + count ≤ 4294967295 }
    requires room { vec_len seats.old + count ≤ vec_capacity seats.old }
    ensures { IfOk result
        (λ _. AddsSeats config.now shard count seats.old.items seats.new.items) }
{
    if count == 0 {
        return Ok(());
    }
    seats.push_reserved(Seat::new(alloc, config, shard)?);
    add_seats(alloc, config, shard + 1, count - 1, seats)
}

/// Takes the first item out.
pub fn take_first<T>(list: &mut Vec<T>) -> T
    requires { 0 < vec_len list.old }
    ensures items { list.old.items ≡ result ∷ list.new.items }
    ensures room { vec_capacity list.new ≡ vec_capacity list.old }
{
    list.remove(0)
}

/// Puts each pass at a desk, and parts the ends of the queues.
pub fn seat_all<P, H: JobHouse<P>>(
    house: &H,
    shard: u32,
    passes: &mut Vec<P>,
    seats: &mut Vec<Seat>,
    queues: &mut Vec<JobQueue>,
    desks: &mut Vec<Desk<P>>,
    ports: &mut Vec<Port>,
)
    requires passes { ArePasses (H.calls house.now) shard passes.old.items }
    requires seats { AreSeats (H.calls house.now).config shard seats.old.items }
    requires all { length seats.old.items ≡ length passes.old.items }
    requires range { shard + length passes.old.items ≤ 4294967295 }
    requires queues { vec_len queues.old + length passes.old.items ≤ vec_capacity queues.old }
    requires desks { vec_len desks.old + length passes.old.items ≤ vec_capacity desks.old }
    requires ports { vec_len ports.old + length passes.old.items ≤ vec_capacity ports.old }
    ensures seats { Seats (H.calls house.now) shard passes.old.items
        queues.old.items queues.new.items desks.old.items desks.new.items
        ports.old.items ports.new.items }
    ensures empty { passes.new.items ≡ [] }
    ensures room { vec_capacity passes.new ≡ vec_capacity passes.old }
{
    if passes.is_empty() {
        return;
    }
    let pass = take_first(passes);
    let seat = take_first(seats);
    let Seat {
        queue,
        putter,
        taker,
        batch,
        parker,
        unparker,
    } = seat;
    queues.push_reserved(queue);
    desks.push_reserved(Desk::new(shard, pass, taker, batch, parker));
    ports.push_reserved(Port {
        putter,
        row: TallyRow::new(),
        unparker,
        waits: false,
    });
    seat_all(house, shard + 1, passes, seats, queues, desks, ports);
}
