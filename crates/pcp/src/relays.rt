//! The relays over the sockets of this host.
use crate::keys::{ANY_KEY, filed_key};
use crate::tools::{kept_socket, tell_now};
use cascade_runs::run_cascade;
use pcp_base::{Address, Memory};
use program_links::{
    CLIENT_PORT, RelayInbox, RelayOutbox, clock_from_now, inner_place, ip_of, socket_at,
    told_and_ordered,
};
use program_texts::{dropped_text, families_cause, port_cause};
use proxy_runs::{SERVER_PORT, run_proxy};
use relay_words::{CascadeAsk, ProxyAsk, cascade_ask_of, proxy_ask_of};
use std::alloc::Global;
use std::net::{SocketAddr, UdpSocket};
use std::slice;
use std::sync::Wait;
use tool_commands::ToolStatus;

/// Whether the words may be the command of a relay.
pub(crate) fn may_relay(words: &[String]) -> bool {
    match words {
        [command, ..] => ["proxy", "cascade"].contains(&command.as_str()),
        [] => false,
    }
}

/// Whether the words may be the command of a relay beside a translator of its own.
fn may_cascade(words: &[String]) -> bool {
    match words {
        [command, ..] => command.as_str() == "cascade",
        [] => false,
    }
}

/// What the words tell the relay of either command; none where they are no command.
fn terms_in(
    alloc: Global,
    words: &[String],
    filed: Option<&str>,
) -> Result<Option<ProxyAsk>, Memory> {
    match cascade_ask_of(alloc, words, filed)? {
        Some(CascadeAsk { command, more }) => Ok(Some(ProxyAsk {
            command: command.relay,
            more,
        })),
        None => proxy_ask_of(alloc, words, filed),
    }
}

/// The sockets of a relay: those of its inner addresses and its own one, with their places, and those of
/// port 5350.
#[derive(Drop)]
struct RelayLinks {
    places: Vec<SocketAddr>,
    inner: Vec<Option<UdpSocket>>,
    own_place: SocketAddr,
    own: Option<UdpSocket>,
    told: Option<(UdpSocket, UdpSocket)>,
}

/// The inner addresses, the first one first.
fn inner_of(alloc: Global, ask: &ProxyAsk) -> Result<Vec<Address>, Memory> {
    let mut addresses = Vec::new(alloc);
    addresses.push(ask.command.inner)?;
    addresses.extend_from_slice(ask.more.inner.items())?;
    Ok(addresses)
}

/// Makes the sockets of a relay of these terms. Why it can't begin is told where people ask, and what it goes
/// on without in any case.
fn links_of(rt: &HostRuntime, ask: &ProxyAsk, explains: bool) -> Result<RelayLinks, Memory> {
    let alloc = rt.alloc();
    let mut causes = Vec::new(alloc);
    let mut places = Vec::new(alloc);
    let mut inner = Vec::new(alloc);
    for address in &inner_of(alloc, ask)? {
        let at = inner_place(rt, *address, SERVER_PORT);
        places.push(at)?;
        inner.push(kept_socket(alloc, at, socket_at(at), &mut causes)?)?;
    }
    let own_place = SocketAddr::new(ip_of(ask.command.own), 0);
    let own = kept_socket(alloc, own_place, socket_at(own_place), &mut causes)?;
    tell_now(rt, &causes, explains);
    Ok(RelayLinks {
        places,
        inner,
        own_place,
        own,
        told: told_or_lacking(rt, ask)?,
    })
}

/// The sockets of port 5350; what a relay goes on without is told.
fn told_or_lacking(
    rt: &HostRuntime,
    ask: &ProxyAsk,
) -> Result<Option<(UdpSocket, UdpSocket)>, Memory> {
    let alloc = rt.alloc();
    let mut lacks = Vec::new(alloc);
    let (own, server) = (ip_of(ask.command.own), ip_of(ask.command.server));
    if own.is_ipv4() != server.is_ipv4() {
        lacks.push(families_cause(alloc, own, server)?)?;
    }
    let told = match told_and_ordered() {
        Ok(told) => Some(told),
        Err(error) => {
            lacks.push(port_cause(alloc, CLIENT_PORT, error)?)?;
            None
        }
    };
    tell_now(rt, &lacks, true);
    Ok(told)
}

/// Tells how many datagrams of clients were dropped, where one was.
fn tell_dropped(rt: &HostRuntime, dropped: u64) -> Result<(), Memory> {
    if dropped > 0 {
        let line = dropped_text(rt.alloc(), dropped)?;
        tell_now(rt, &[line], true);
    }
    Ok(())
}

/// Relays as the words say. Clients ask at the port of servers of its inner addresses, from which they are
/// answered; its own requests leave from its own address, to which the replies come. It listens for
/// announcements and orders too, unless another program does.
pub(crate) fn relay_over<R: Wait>(
    waits: &R,
    rt: &HostRuntime,
    words: &[String],
    explains: bool,
) -> Result<ToolStatus, Memory> {
    let alloc = rt.alloc();
    if terms_in(alloc, words, Some(ANY_KEY))?.is_none() {
        return Ok(ToolStatus::WordsRefused);
    }
    let filed = match filed_key(rt, words, explains)? {
        Ok(filed) => filed,
        Err(status) => return Ok(status),
    };
    let Some(ask) = terms_in(alloc, words, filed.as_deref())? else {
        return Ok(ToolStatus::WordsRefused);
    };
    relay_by(waits, rt, words, filed.as_deref(), &ask, explains)
}

/// The same, with the text of the file that the words name for the key.
fn relay_by<R: Wait>(
    waits: &R,
    rt: &HostRuntime,
    words: &[String],
    filed: Option<&str>,
    ask: &ProxyAsk,
    explains: bool,
) -> Result<ToolStatus, Memory> {
    let alloc = rt.alloc();
    let links = links_of(rt, ask, explains)?;
    let mut down = RelayOutbox::of(alloc, &links.places, &links.inner)?;
    let mut up = RelayOutbox::of(
        alloc,
        slice::from_ref(&links.own_place),
        slice::from_ref(&links.own),
    )?;
    let RelayLinks {
        inner,
        own,
        told,
        ..
    } = links;
    let mut from = RelayInbox::of(alloc, ask.command.server, inner, own, told)?;
    let mut clock = clock_from_now(rt);
    let mut dropped = 0;
    let status = if may_cascade(words) {
        run_cascade(
            waits,
            alloc,
            words,
            filed,
            &mut down,
            &mut up,
            &mut from,
            &mut clock,
            &mut dropped,
        )
    } else {
        run_proxy(
            waits,
            alloc,
            words,
            filed,
            &mut down,
            &mut up,
            &mut from,
            &mut clock,
            &mut dropped,
        )
    };
    tell_dropped(rt, dropped)?;
    Ok(status)
}
