//! Losses of all leases of an external address: one that finds its queue full waits for room.
ghost use Rattle.std.specs.Prelude.{◌≡◌, ◌≤◌, ◌<◌, ℕ, List, [], length, IsFalse, IsTrue};
ghost use Rattle.pcp_io.specs.declared.inboxes.InboxItem.TheVariants as InboxItem;
ghost use Rattle.job_queue.specs.Queues.{WasFull};
ghost use Rattle.job_queue.specs.declared.jobs.Job.TheVariants as Jobs;
ghost use Rattle.job_dispatch.specs.Dispatches.{AreLate, ArePorts, HasLossFate, IsLate, NoneWaits, OffersLoss, OffersLossAt, PutsLate, place_of_external, port_with};

use crate::naps::nap;
use crate::orders::{DONE, Orders, REFUSED, tell};
use crate::ports::Port;
use job_queue::{Job, JobQueue};
use pcp_base::{Address, Config};
use pcp_io::Inbox;
use std::sync::Wait;

/// How long the end sleeps between two looks at losses that wait, in nanoseconds.
const NAP: i64 = 1_000_000;

/// Puts a loss into its queue, if there is room, and wakes the worker. True where it was put.
fn put_loss<R: Wait>(rt: &R, queue: &JobQueue, port: &mut Port) -> bool
    requires { port.old.putter.queue ≡ queue.now }
    ensures put { IsTrue result → port.new ≡ port_with port.old Jobs.Lose }
    ensures full { IsFalse result → (port.new ≡ port.old) × WasFull [] port.old.putter.put }
{
    let Port {
        putter,
        unparker,
        ..
    } = port;
    let news = queue.news_of_put(putter);
    let put = queue.put(rt, putter, news, Job::Lose, false);
    unparker.unpark();
    put.is_ok()
}

/// Puts a loss, unless one waits for that queue. Where it is full it waits. True where it was put.
fn offer_loss<R: Wait>(rt: &R, queue: &JobQueue, port: &mut Port) -> bool
    requires { port.old.putter.queue ≡ queue.now }
    ensures { OffersLoss port.old port.new result }
{
    if port.waits {
        return false;
    }
    if put_loss(rt, queue, port) {
        return true;
    }
    port.waits = true;
    false
}

/// Offers a loss to the queue of this shard.
fn offer_loss_at<R: Wait>(
    rt: &R,
    config: &Config,
    queues: &[JobQueue],
    ports: &mut [Port],
    shard: usize,
) -> bool
    requires shard { shard < length ports.old }
    requires ports { ArePorts config.now queues.now ports.old }
    ensures { OffersLossAt shard ports.old ports.new result }
{
    let _config = config;
    offer_loss(rt, &queues[shard], &mut ports[shard])
}

/// The index of the external address.
fn external_place(config: &Config, address: &Address) -> Option<usize>
    ensures { result ≡ place_of_external config.now address.now }
{
    config
        .externals
        .items()
        .iter()
        .position(|external| external.address == *address)
}

/// What becomes of a loss by the order of this number, which is answered once it was put.
pub fn dispatch_loss<R: Wait, I: Inbox>(
    rt: &R,
    config: &Config,
    queues: &[JobQueue],
    ports: &mut [Port],
    orders: &mut Orders,
    inbox: &mut I,
    order: u32,
    address: &Address,
)
    requires ports { ArePorts config.now queues.now ports.old }
    requires all { length ports.old ≡ length config.now.externals }
    ensures fate { HasLossFate config.now (InboxItem.Lose order address.now) ports.old ports.new }
    ensures left { I.left inbox.new ≡ I.left inbox.old }
    ensures later { I.faults inbox.old ≤ I.faults inbox.new }
{
    let Some(shard) = external_place(config, address) else {
        tell(inbox, order, REFUSED);
        return;
    };
    if offer_loss_at(rt, config, queues, ports, shard) {
        tell(inbox, order, DONE);
        return;
    }
    if !orders.add_loss(shard, order) {
        tell(inbox, order, REFUSED);
    }
}

/// Puts the loss that waits for this queue, if one does and there is room. True where it was put.
fn put_late<R: Wait>(rt: &R, queue: &JobQueue, port: &mut Port) -> bool
    requires { port.old.putter.queue ≡ queue.now }
    ensures { PutsLate port.old port.new result }
{
    if !port.waits {
        return false;
    }
    if !put_loss(rt, queue, port) {
        return false;
    }
    port.waits = false;
    true
}

/// Puts the loss that waits for this shard, if one does and there is room. True where it was put.
fn put_late_at<R: Wait>(
    rt: &R,
    config: &Config,
    queues: &[JobQueue],
    ports: &mut [Port],
    shard: usize,
) -> bool
    requires shard { shard < length ports.old }
    requires ports { ArePorts config.now queues.now ports.old }
    ensures put { IsTrue result → IsLate shard ports.old ports.new }
    ensures unchanged { IsFalse result → ports.new ≡ ports.old }
{
    let _config = config;
    put_late(rt, &queues[shard], &mut ports[shard])
}

/// Puts the losses that wait for queues in which there is room, and answers their orders.
pub fn put_waiting<R: Wait, I: Inbox>(
    rt: &R,
    config: &Config,
    queues: &[JobQueue],
    ports: &mut [Port],
    orders: &mut Orders,
    inbox: &mut I,
)
    requires ports { ArePorts config.now queues.now ports.old }
    ensures late { (shards : List ℕ) × AreLate shards ports.old ports.new }
    ensures ports { ArePorts config.now queues.now ports.new }
    ensures left { I.left inbox.new ≡ I.left inbox.old }
    ensures later { I.faults inbox.old ≤ I.faults inbox.new }
{
    for shard in 0..ports.len() {
        if put_late_at(rt, config, queues, ports, shard) {
            orders.answer_losses(inbox, shard);
        }
    }
}

/// Whether a loss waits.
fn does_any_wait(ports: &[Port]) -> bool
    ensures { IsFalse result → NoneWaits ports.now }
{
    let Some((port, ports)) = ports.split_first() else {
        return false;
    };
    if port.waits {
        return true;
    }
    does_any_wait(ports)
}

/// Puts all losses that wait, and answers their orders. It waits for room.
pub fn put_all_waiting<R: Wait, I: Inbox>(
    rt: &R,
    config: &Config,
    queues: &[JobQueue],
    ports: &mut [Port],
    orders: &mut Orders,
    inbox: &mut I,
)
    requires ports { ArePorts config.now queues.now ports.old }
    ensures late { (shards : List ℕ) × AreLate shards ports.old ports.new }
    ensures none { NoneWaits ports.new }
    ensures left { I.left inbox.new ≡ I.left inbox.old }
    ensures later { I.faults inbox.old ≤ I.faults inbox.new }
{
    for _ in rt.forever() {
        put_waiting(rt, config, queues, ports, orders, inbox);
        if !does_any_wait(ports) {
            return;
        }
        nap(NAP);
    }
    unreachable!()
}
