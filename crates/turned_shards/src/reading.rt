//! Reading the requests of a batch, and writing their replies.
ghost use Rattle.std.specs.Prelude.{◌≡◌, ◌+◌, ◌<◌, ◌≤◌, ◌∷◌, ◌++◌, [], length, map, take, IfOk};
ghost use Rattle.std.specs.Prelude.{OnOk};
ghost use Rattle.pcp_base.specs.Configs.{IsConfig};
ghost use Rattle.pcp_options.specs.Responses.{AreOctets};
ghost use Rattle.turned_shards.specs.BatchEntries.{Asked, asked_in};
ghost use Rattle.turned_shards.specs.Reading.{IsReadBy, IsSourceOf, replies_to, reply_to};

use lease_house::{read_datagram, reply_of};
use pcp_base::{Address, Ask, Config, Datagram, Memory};
use pcp_options::Items;
use shard_book::Answered;
use std::alloc::Global;

/// From which datagram of a batch a request came, and with which options.
#[derive(Drop)]
pub(crate) struct Source {
    pub(crate) at: usize,
    pub(crate) items: Items,
}

/// The requests of a batch. Silent datagrams are left out.
#[derive(Drop)]
pub(crate) struct Requests {
    pub(crate) asks: Vec<Ask>,
    pub(crate) sources: Vec<Source>,
}

/// Each of these octets is below 256.
fn are_octets(_octets: &[u8])
    ensures { AreOctets _octets.now }
{}

/// Reads the datagram at this place of a batch.
fn read_next(
    alloc: Global,
    config: &Config,
    batch: &[Datagram],
    at: usize,
    requests: &mut Requests,
) -> Result<(), Memory>
    requires config { IsConfig config.now }
    requires at { at < length batch.now }
    requires read { IsReadBy config.now batch.now (asked_in config.now (take at batch.now))
        requests.old }
    ensures { OnOk result (IsReadBy config.now batch.now
        (asked_in config.now (take (at + 1) batch.now)) requests.new) }
{
    let datagram = &batch[at];
    are_octets(datagram.octets.items());
    if let Some(routed) = read_datagram(alloc, config, datagram)? {
        requests.asks.push(routed.ask)?;
        requests.sources.push(Source {
            at,
            items: routed.items,
        })?;
    }
    Ok(())
}

/// Reads the requests of a batch, in order.
pub(crate) fn read_batch(
    alloc: Global,
    config: &Config,
    batch: &[Datagram],
) -> Result<Requests, Memory>
    requires { IsConfig config.now }
    ensures { IfOk result (IsReadBy config.now batch.now (asked_in config.now batch.now)) }
{
    let mut requests = Requests {
        asks: Vec::new(alloc),
        sources: Vec::new(alloc),
    };
    for at in 0..batch.len() {
        read_next(alloc, config, batch, at, &mut requests)?;
    }
    Ok(requests)
}

/// The reply of an external address to the request that came from this place of a batch, by its door.
fn reply_at(
    alloc: Global,
    address: &Address,
    batch: &[Datagram],
    source: &Source,
    ask: &Ask,
    answered: &Answered,
) -> Result<Datagram, Memory>
    requires at { source.now.at < length batch.now }
    requires source { (a : Asked) × IsSourceOf batch.now source.now a }
    ensures { (a : Asked) → IsSourceOf batch.now source.now a →
        IfOk result (λ reply. reply ≡ reply_to address.now a answered.now) }
{
    let from = &batch[source.at];
    let request = from.octets.items();
    let octets = reply_of(
        alloc,
        request,
        address,
        ask,
        &source.items,
        &answered.dated(),
    )?;
    Ok(Datagram {
        peer: from.peer,
        port: from.port,
        door: from.door,
        octets,
    })
}

/// The replies to the requests of a batch that were answered so, in order.
pub(crate) fn replies_of(
    alloc: Global,
    address: &Address,
    _config: &Config,
    batch: &[Datagram],
    requests: &Requests,
    answers: &[Answered],
) -> Result<Vec<Datagram>, Memory>
    requires read { IsReadBy _config.now batch.now (asked_in _config.now batch.now)
        requests.now }
    requires answers { length answers.now ≡ length requests.now.asks.items }
    ensures { IfOk result (λ replies. replies.items
        ≡ replies_to address.now (asked_in _config.now batch.now) answers.now) }
{
    let mut replies = Vec::with_capacity(alloc, answers.len())?;
    for k in 0..answers.len() {
        let source = &requests.sources[k];
        let reply = reply_at(
            alloc,
            address,
            batch,
            source,
            &requests.asks[k],
            &answers[k],
        )?;
        replies.push(reply)?;
    }
    Ok(replies)
}
