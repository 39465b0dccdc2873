//! What serving takes memory for, made before a pass is moved.
ghost use Rattle.std.specs.Prelude.{◌≡◌, [], IfOk};
ghost use Rattle.request_workers.specs.Rooms.{IsRoom};

use crate::seats::{Seat, add_seats};
use job_dispatch::Port;
use job_queue::JobQueue;
use job_workers::{Desk, TallyRow};
use pcp_base::{Config, Memory};
use std::alloc::Global;

/// A seat for each external address, and room for what the threads need. It is given back by
/// [`close`](Room::close) where nothing is served.
pub struct Room<P> {
    pub seats: Vec<Seat>,
    pub queues: Vec<JobQueue>,
    pub desks: Vec<Desk<P>>,
    pub ports: Vec<Port>,
    pub rows: Vec<TallyRow>,
}

impl<P> Room<P> {
    /// Gives back a room in which nobody sits at a desk.
    pub fn close(self)
        requires { self.desks.items ≡ [] }
    {
        let Room {
            seats: _seats,
            queues: _queues,
            desks,
            ports: _ports,
            rows: _rows,
        } = self;
        desks.destroy_empty();
    }
}

/// Room for so many external addresses. The one error is want of memory.
pub fn make_room<P>(alloc: Global, config: &Config, count: u32) -> Result<Room<P>, Memory>
    ensures { IfOk result (IsRoom config.now count) }
{
    let most = count as usize;
    let mut seats = Vec::with_capacity(alloc, most)?;
    add_seats(alloc, config, 0, count, &mut seats)?;
    let queues = Vec::with_capacity(alloc, most)?;
    let ports = Vec::with_capacity(alloc, most)?;
    let rows = Vec::with_capacity(alloc, most)?;
    let desks = Vec::with_capacity(alloc, most)?;
    Ok(Room {
        seats,
        queues,
        desks,
        ports,
        rows,
    })
}
