//! The dispatcher: what comes into the inbox goes to the queues of the external addresses.
ghost use Rattle.std.specs.Prelude.{◌≡◌, ◌<◌, length, Some, IfOk, IsFalse, IsTrue};
ghost use Rattle.pcp_base.specs.Configs.{IsConfig};
ghost use Rattle.pcp_io.specs.declared.inboxes.InboxItem.TheVariants as InboxItem;
ghost use Rattle.lease_histories.specs.Routes.{route_of};
ghost use Rattle.job_dispatch.specs.Dispatches.{ArePorts, HasFate, Offers, OffersAt, Sifts, StarvesAt, came, is_noise_for, port_starved};
ghost use Rattle.job_dispatch.specs.Noise.{IsTooMuch};
ghost use Rattle.job_queue.specs.Noise.{is_noise};
ghost use Rattle.job_queue.specs.Queues.{IsJobFor, is_noise_job};

use crate::noise::{MOST_NOISE, MOST_NOISE_A_SECOND, NoiseCounts};
use crate::sifting::{Sifted, sift};
use crossbeam_utils::sync::Unparker;
use job_queue::{Job, JobQueue, Putter};
use job_workers::TallyRow;
use pcp_base::{Address, Config, Datagram, Memory, Octets};
use std::alloc::Global;
use std::sync::Wait;

/// The UDP port to which announcements go (RFC 6887, section 14.1).
pub const ANNOUNCEMENT_PORT: u16 = 5350;

/// What the dispatcher has of a shard.
#[derive(Drop)]
pub struct Port {
    pub putter: Putter,
    pub row: TallyRow,
    /// wakes the worker
    pub unparker: Unparker,
    /// whether a loss waits for room in the queue
    pub waits: bool,
}

/// Puts a job into its queue, or counts that it was dropped at a full one, and wakes the worker. Noise
/// that was put is counted.
fn offer<R: Wait>(
    rt: &R,
    queue: &JobQueue,
    port: &mut Port,
    noise: &mut NoiseCounts,
    job: Job,
    is_noise: bool,
)
    requires queue { port.old.putter.queue ≡ queue.now }
    requires job { IsJobFor port.old.putter.route job }
    requires noise { is_noise ≡ is_noise_job port.old.putter.route job }
    requires room { IsTrue is_noise → noise.old.put < 1000 }
    ensures { Offers is_noise job port.old port.new noise.old noise.new }
{
    let Port {
        putter,
        row,
        unparker,
        waits: _waits,
    } = port;
    let news = queue.news_of_put(putter);
    match queue.put(rt, putter, news, job, is_noise) {
        Ok(()) => noise.count_put(is_noise),
        Err(_) => row.count_full(),
    }
    unparker.unpark();
}

/// A datagram that came by this door from this peer.
pub fn datagram_from(
    alloc: Global,
    peer: Address,
    port: u16,
    door: u8,
    octets: &[u8],
) -> Result<Datagram, Memory>
    ensures { IfOk result
        (λ d. d ≡ record { peer = peer; port = port; door = door; octets = octets.now }) }
{
    Ok(Datagram {
        peer,
        port,
        door,
        octets: Octets::of(octets.to_vec(alloc)?),
    })
}

/// Offers a job to the queue of this shard.
fn offer_at<R: Wait>(
    rt: &R,
    config: &Config,
    queues: &[JobQueue],
    ports: &mut [Port],
    noise: &mut NoiseCounts,
    shard: usize,
    job: Job,
    is_noise: bool,
)
    requires shard { shard < length ports.old }
    requires ports { ArePorts config.now queues.now ports.old }
    requires job { IsJobFor (Some (record { config = config.now; shard = shard })) job }
    requires noise { is_noise ≡ is_noise_for config.now shard job }
    requires room { IsTrue is_noise → noise.old.put < 1000 }
    ensures { OffersAt is_noise shard job ports.old ports.new noise.old noise.new }
{
    let _config = config;
    offer(rt, &queues[shard], &mut ports[shard], noise, job, is_noise);
}

/// Whether noise for this port is dropped: as much was put in this second as may be, or its queue holds
/// as much as it may.
fn is_too_much<R: Wait>(rt: &R, queue: &JobQueue, port: &mut Port, noise: &NoiseCounts) -> bool
    requires { port.old.putter.queue ≡ queue.now }
    ensures unchanged { port.new ≡ port.old }
    ensures much { IsTrue result → IsTooMuch noise.now port.old.putter }
    ensures room { IsFalse result → noise.now.put < 1000 }
{
    if noise.put >= MOST_NOISE_A_SECOND {
        return true;
    }
    let news = queue.news_of_put(&mut port.putter);
    queue.noise_held(rt, &mut port.putter, news) >= MOST_NOISE
}

/// Whether what was sifted is dropped as noise, which is then counted.
fn is_dropped<R: Wait>(
    rt: &R,
    config: &Config,
    queues: &[JobQueue],
    ports: &mut [Port],
    noise: &mut NoiseCounts,
    sifted: Sifted,
) -> bool
    requires inside { sifted.place < length ports.old }
    requires ports { ArePorts config.now queues.now ports.old }
    ensures { Sifts sifted ports.old ports.new noise.old noise.new result }
{
    let _config = config;
    if !sifted.is_noise {
        return false;
    }
    let shard = sifted.place as usize;
    let is_much = is_too_much(rt, &queues[shard], &mut ports[shard], noise);
    if is_much {
        noise.count_dropped();
    }
    is_much
}

/// Counts in the row of a port that a job was dropped for want of memory.
fn starve(port: &mut Port)
    ensures { port.new ≡ port_starved port.old }
{
    port.row.count_starved();
}

/// Counts in the row of the first shard that a datagram was dropped for want of memory.
pub fn count_starved(ports: &mut [Port])
    requires { 0 < length ports.old }
    ensures { StarvesAt ports.old ports.new }
{
    starve(&mut ports[0]);
}

/// Copies a datagram that isn't dropped as noise, and offers it.
fn copy_packet<R: Wait>(
    rt: &R,
    alloc: Global,
    config: &Config,
    queues: &[JobQueue],
    ports: &mut [Port],
    noise: &mut NoiseCounts,
    sifted: Sifted,
    peer: Address,
    port: u16,
    door: u8,
    octets: &[u8],
)
    requires ports { ArePorts config.now queues.now ports.old }
    requires inside { sifted.place < length ports.old }
    requires place { sifted.place ≡ route_of config.now (came peer port door octets.now) }
    requires noise { sifted.is_noise ≡ is_noise config.now (came peer port door octets.now) }
    requires room { IsTrue sifted.is_noise → noise.old.put < 1000 }
    ensures { HasFate config.now (InboxItem.Packet (came peer port door octets.now))
        ports.old ports.new noise.old noise.new }
{
    let Ok(datagram) = datagram_from(alloc, peer, port, door, octets) else {
        count_starved(ports);
        return;
    };
    let shard = sifted.place as usize;
    let job = Job::Packet(datagram);
    offer_at(
        rt,
        config,
        queues,
        ports,
        noise,
        shard,
        job,
        sifted.is_noise,
    );
}

/// What becomes of octets that came by this door from this peer. They are judged before they are copied.
pub fn dispatch_packet<R: Wait>(
    rt: &R,
    alloc: Global,
    config: &Config,
    queues: &[JobQueue],
    ports: &mut [Port],
    noise: &mut NoiseCounts,
    peer: Address,
    port: u16,
    door: u8,
    octets: &[u8],
)
    requires config { IsConfig config.now }
    requires ports { ArePorts config.now queues.now ports.old }
    requires all { length ports.old ≡ length config.now.externals }
    ensures { HasFate config.now (InboxItem.Packet (came peer port door octets.now))
        ports.old ports.new noise.old noise.new }
{
    let Ok(sifted) = sift(alloc, config, &peer, octets) else {
        count_starved(ports);
        return;
    };
    if is_dropped(rt, config, queues, ports, noise, sifted) {
        return;
    }
    copy_packet(
        rt, alloc, config, queues, ports, noise, sifted, peer, port, door, octets,
    );
}
