//! The dispatcher's loop.
ghost use Rattle.std.specs.Prelude.{◌≡◌, ◌≤◌, ℕ, List, length, IfSome};
ghost use Rattle.pcp_base.specs.Configs.{IsConfig};
ghost use Rattle.pcp_io.specs.declared.inboxes.TheConstants.{LONGEST_DATAGRAM};
ghost use Rattle.pcp_io.specs.Takes.{filled, item_of};
ghost use Rattle.pcp_announce.specs.Doors.{groups};
ghost use Rattle.job_dispatch.specs.declared.ports.TheConstants.{ANNOUNCEMENT_PORT};
ghost use Rattle.job_dispatch.specs.Dispatches.{AreLate, ArePorts, HasFate, NoneWaits};
ghost use Rattle.job_dispatch.specs.Dispatching.{IsItemTurn, RunsDispatcher, RunsItems};

use crate::announcements::announce;
use crate::losses::{dispatch_loss, put_all_waiting, put_waiting};
use crate::noise::NoiseCounts;
use crate::orders::{Orders, REFUSED, tell};
use crate::ports::{Port, dispatch_packet};
use job_queue::JobQueue;
use job_workers::JobHouse;
use pcp_announce::Announcer;
use pcp_base::{Config, Failed};
use pcp_io::{Clock, Inbox, Incoming, Outbox};
use status_board::Board;
use std::alloc::Global;
use std::sync::Wait;

/// Leaves what was counted on the board, and asks all workers for their numbers. The order of this
/// number waits for them.
fn ask_status<I: Inbox>(
    board: &Board,
    ports: &[Port],
    noise: &NoiseCounts,
    orders: &mut Orders,
    inbox: &mut I,
    order: u32,
)
    ensures left { I.left inbox.new ≡ I.left inbox.old }
    ensures later { I.faults inbox.old ≤ I.faults inbox.new }
{
    board.drop_noise(noise.dropped);
    let mut shard = 0u32;
    for port in ports {
        board.count_dropped(shard, port.row.full, port.row.starved);
        shard = shard.saturating_add(1);
    }
    board.ask();
    for port in ports {
        port.unparker.unpark();
    }
    if !orders.add_status(order) {
        tell(inbox, order, REFUSED);
    }
}

/// What becomes of what a take gave.
fn dispatch_item<R: Wait, I: Inbox>(
    rt: &R,
    alloc: Global,
    config: &Config,
    board: &Board,
    queues: &[JobQueue],
    ports: &mut [Port],
    noise: &mut NoiseCounts,
    orders: &mut Orders,
    inbox: &mut I,
    incoming: Incoming,
    piece: &[u8],
)
    requires config { IsConfig config.now }
    requires ports { ArePorts config.now queues.now ports.old }
    requires all { length ports.old ≡ length config.now.externals }
    requires piece { filled incoming ≤ length piece.now }
    ensures fate { IfSome (item_of incoming piece.now)
        (λ item. HasFate config.now item ports.old ports.new noise.old noise.new) }
    ensures left { I.left inbox.new ≡ I.left inbox.old }
    ensures later { I.faults inbox.old ≤ I.faults inbox.new }
{
    match incoming {
        Incoming::Packet {
            peer,
            port,
            door,
            length,
        } => {
            let octets = &piece[..length];
            dispatch_packet(
                rt, alloc, config, queues, ports, noise, peer, port, door, octets,
            );
        }
        Incoming::Lose(order, address) => {
            dispatch_loss(rt, config, queues, ports, orders, inbox, order, &address);
        }
        Incoming::Status(order) => ask_status(board, ports, noise, orders, inbox, order),
        Incoming::Quiet => {}
        Incoming::Stop => {}
    }
}

/// Takes an item, announces what is due, and hands the item on. False where the inbox stopped.
fn do_item<R: Wait, I: Inbox, O: Outbox, T: Clock, P, H: JobHouse<P>>(
    rt: &R,
    alloc: Global,
    house: &H,
    config: &Config,
    board: &Board,
    queues: &[JobQueue],
    pass: &mut P,
    announcer: &mut Announcer,
    ports: &mut [Port],
    noise: &mut NoiseCounts,
    orders: &mut Orders,
    inbox: &mut I,
    out: &mut O,
    clock: &mut T,
    piece: &mut [u8],
) -> Result<bool, Failed>
    requires config { IsConfig config.now }
    requires pass { (H.calls house.now).is_pass pass.old }
    requires ports { ArePorts config.now queues.now ports.old }
    requires all { length ports.old ≡ length config.now.externals }
    requires piece { LONGEST_DATAGRAM ≤ length piece.old }
    ensures { IsItemTurn (H.calls house.now) config.now (groups config.now) ANNOUNCEMENT_PORT
        (record {
          ports = ports.old;
          noise = noise.old;
          announcing = record {
            pass = pass.old;
            schedule = announcer.old;
            sent = O.sent out.old;
            faults = O.faults out.old;
            times = T.times clock.old;
          };
          left = I.left inbox.old;
          faults = I.faults inbox.old;
        })
        (record {
          ports = ports.new;
          noise = noise.new;
          announcing = record {
            pass = pass.new;
            schedule = announcer.new;
            sent = O.sent out.new;
            faults = O.faults out.new;
            times = T.times clock.new;
          };
          left = I.left inbox.new;
          faults = I.faults inbox.new;
        })
        result }
{
    let incoming = inbox.take(piece)?;
    if incoming == Incoming::Stop {
        return Ok(false);
    }
    let time = announce(house, config, pass, announcer, out, clock);
    noise.begin(time / 1_000);
    orders.reach(alloc, config, board, inbox, time);
    dispatch_item(
        rt, alloc, config, board, queues, ports, noise, orders, inbox, incoming, piece,
    );
    Ok(true)
}

/// Hands on all items until the inbox stops or fails, and in between losses that waited.
fn dispatch_items<R: Wait, I: Inbox, O: Outbox, T: Clock, P, H: JobHouse<P>>(
    rt: &R,
    alloc: Global,
    house: &H,
    config: &Config,
    board: &Board,
    queues: &[JobQueue],
    pass: &mut P,
    announcer: &mut Announcer,
    ports: &mut [Port],
    noise: &mut NoiseCounts,
    orders: &mut Orders,
    inbox: &mut I,
    out: &mut O,
    clock: &mut T,
    piece: &mut [u8],
) -> Result<(), Failed>
    requires config { IsConfig config.now }
    requires pass { (H.calls house.now).is_pass pass.old }
    requires ports { ArePorts config.now queues.now ports.old }
    requires all { length ports.old ≡ length config.now.externals }
    requires piece { LONGEST_DATAGRAM ≤ length piece.old }
    ensures { RunsItems (H.calls house.now) config.now (groups config.now) ANNOUNCEMENT_PORT
        (record {
          ports = ports.old;
          noise = noise.old;
          announcing = record {
            pass = pass.old;
            schedule = announcer.old;
            sent = O.sent out.old;
            faults = O.faults out.old;
            times = T.times clock.old;
          };
          left = I.left inbox.old;
          faults = I.faults inbox.old;
        })
        (record {
          ports = ports.new;
          noise = noise.new;
          announcing = record {
            pass = pass.new;
            schedule = announcer.new;
            sent = O.sent out.new;
            faults = O.faults out.new;
            times = T.times clock.new;
          };
          left = I.left inbox.new;
          faults = I.faults inbox.new;
        })
        result }
{
    for _ in rt.forever() {
        put_waiting(rt, config, queues, ports, orders, inbox);
        let more = do_item(
            rt, alloc, house, config, board, queues, pass, announcer, ports, noise, orders, inbox,
            out, clock, piece,
        )?;
        if !more {
            return Ok(());
        }
    }
    unreachable!()
}

/// Hands on all items until the inbox stops or fails. Then all losses that wait are put, and all orders
/// answered.
pub fn dispatch<R: Wait, I: Inbox, O: Outbox, T: Clock, P, H: JobHouse<P>>(
    rt: &R,
    alloc: Global,
    house: &H,
    config: &Config,
    board: &Board,
    queues: &[JobQueue],
    pass: &mut P,
    announcer: &mut Announcer,
    ports: &mut [Port],
    noise: &mut NoiseCounts,
    inbox: &mut I,
    out: &mut O,
    clock: &mut T,
    piece: &mut [u8],
) -> Result<(), Failed>
    requires config { IsConfig config.now }
    requires pass { (H.calls house.now).is_pass pass.old }
    requires ports { ArePorts config.now queues.now ports.old }
    requires all { length ports.old ≡ length config.now.externals }
    requires piece { LONGEST_DATAGRAM ≤ length piece.old }
    ensures { RunsDispatcher (H.calls house.now) config.now (groups config.now) ANNOUNCEMENT_PORT
        (record {
          ports = ports.old;
          noise = noise.old;
          announcing = record {
            pass = pass.old;
            schedule = announcer.old;
            sent = O.sent out.old;
            faults = O.faults out.old;
            times = T.times clock.old;
          };
          left = I.left inbox.old;
          faults = I.faults inbox.old;
        })
        (record {
          ports = ports.new;
          noise = noise.new;
          announcing = record {
            pass = pass.new;
            schedule = announcer.new;
            sent = O.sent out.new;
            faults = O.faults out.new;
            times = T.times clock.new;
          };
          left = I.left inbox.new;
          faults = I.faults inbox.new;
        })
        result }
{
    let mut orders = Orders::new();
    let read = dispatch_items(
        rt,
        alloc,
        house,
        config,
        board,
        queues,
        pass,
        announcer,
        ports,
        noise,
        &mut orders,
        inbox,
        out,
        clock,
        piece,
    );
    put_all_waiting(rt, config, queues, ports, &mut orders, inbox);
    orders.answer_statuses(alloc, config, board, inbox);
    read
}
