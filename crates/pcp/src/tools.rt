//! The client's commands over the sockets of this host.
use crate::nonces::{ANY_NONCE, filed_nonce, system_words, tell_file};
use client_commands::{ClientCommand, Target};
use client_runs::run_client;
use client_words::{ask_of, keep_of};
use keep_runs::run_keep;
use pcp_base::{Address, Memory};
use pcp_io::{StdSink, UdpOutbox};
use program_links::{
    client_inbox, clock_from_now, ip_of, own_address_to, router_of_host, same_socket, socket_at,
    told_place, told_socket,
};
use program_texts::{
    Aim, families_cause, is_aimed, reach_cause, router_cause, socket_cause, with_aim,
};
use proxy_runs::SERVER_PORT;
use std::alloc::Global;
use std::io;
use std::net::{SocketAddr, UdpSocket};
use std::sync::Wait;
use tool_commands::ToolStatus;

/// The commands of the client.
const ASKING: [&str; 5] = ["map", "peer", "announce", "unmap", "keep"];

/// No address: it stands for the client's own one until that is found.
const NONE: Address = Address([0; 16]);

/// What a command of the client asks by.
#[derive(Drop)]
pub(crate) struct Means {
    // with the addresses that they leave to the program
    words: Vec<String>,
    // the text of the file that they name for the nonce
    filed: Option<Vec<u8>>,
    target: Option<Target>,
    own: Option<UdpSocket>,
    told: Option<UdpSocket>,
    /// What people are told who ask why it ends as it does.
    pub causes: Vec<String>,
}

impl Means {
    /// Whether the words are a command.
    pub(crate) fn is_whole(&self) -> bool {
        self.target.is_some()
    }
}

/// Whether the words may be a command of the client.
pub(crate) fn may_ask(words: &[String]) -> bool {
    match words {
        [command, ..] => ASKING.contains(&command.as_str()),
        [] => false,
    }
}

/// Whether the words may be those of the command that goes on.
fn may_keep(words: &[String]) -> bool {
    match words {
        [command, ..] => command.as_str() == "keep",
        [] => false,
    }
}

/// Whom the words ask; none where they are no command.
fn target_of(
    alloc: Global,
    words: &[String],
    filed: Option<&[u8]>,
) -> Result<Option<Target>, Memory> {
    if let Some(keep) = keep_of(alloc, words, filed)? {
        return Ok(Some(keep.target));
    }
    let Some(ask) = ask_of(alloc, words, filed)? else {
        return Ok(None);
    };
    Ok(Some(match ask.command {
        ClientCommand::Map(target, _) | ClientCommand::Peer(target, _) => target,
        ClientCommand::Announce(target) => target,
    }))
}

/// The words with the server that they don't name: the router of this host.
fn with_server(
    rt: &HostRuntime,
    words: &[String],
    causes: &mut Vec<String>,
) -> Result<Vec<String>, Memory> {
    let alloc = rt.alloc();
    let mut router = None;
    if !is_aimed(Aim::Server, words) {
        router = router_of_host(rt)?;
        if router.is_none() {
            causes.push(router_cause(alloc)?)?;
        }
    }
    with_aim(alloc, Aim::Server, router, words)
}

/// The words with the client's own address that they don't name: that from which the system sends to the
/// server.
fn with_own(
    alloc: Global,
    words: &[String],
    causes: &mut Vec<String>,
) -> Result<Vec<String>, Memory> {
    let mut own = None;
    if !is_aimed(Aim::Own, words) {
        let probe = with_aim(alloc, Aim::Own, Some(NONE), words)?;
        if let Some(target) = target_of(alloc, &probe, Some(ANY_NONCE))? {
            match own_address_to(target.server, SERVER_PORT) {
                Ok(found) => own = Some(found),
                Err(error) => causes.push(reach_cause(alloc, ip_of(target.server), error)?)?,
            }
        }
    }
    with_aim(alloc, Aim::Own, own, words)
}

/// Tells people now, where they ask, since some commands go on for long.
pub(crate) fn tell_now(rt: &HostRuntime, causes: &[String], explains: bool) {
    if explains {
        for cause in causes {
            let _ = eprintln!(rt; "pcp: {cause}");
        }
    }
}

/// The socket, or why there is none.
pub(crate) fn kept_socket(
    alloc: Global,
    at: SocketAddr,
    made: io::Result<UdpSocket>,
    causes: &mut Vec<String>,
) -> Result<Option<UdpSocket>, Memory> {
    match made {
        Ok(socket) => Ok(Some(socket)),
        Err(error) => {
            causes.push(socket_cause(alloc, at, error)?)?;
            Ok(None)
        }
    }
}

/// Finds what a command asks by: its words as the program completes them, the nonce that it keeps in a
/// file, and its sockets. Its requests leave from its own address, to which the replies come; it listens for
/// announcements and updates too.
pub(crate) fn means_of(
    rt: &HostRuntime,
    words: &[String],
) -> Result<Result<Means, (ToolStatus, Vec<String>)>, Memory> {
    let alloc = rt.alloc();
    let mut causes = Vec::new(alloc);
    let words = with_server(rt, words, &mut causes)?;
    let words = with_own(alloc, &words, &mut causes)?;
    let filed = match target_of(alloc, &words, Some(ANY_NONCE))? {
        Some(_target) => filed_nonce(rt, &words, &mut causes)?,
        None => Ok(None),
    };
    let filed = match filed {
        Ok(filed) => filed,
        Err(status) => return Ok(Err((status, causes))),
    };
    Ok(Ok(means_by(alloc, words, filed, causes)?))
}

/// What a command asks by that has these words and the text of this file.
fn means_by(
    alloc: Global,
    words: Vec<String>,
    filed: Option<Vec<u8>>,
    told_causes: Vec<String>,
) -> Result<Means, Memory> {
    let mut causes = told_causes;
    let text = filed.as_deref();
    tell_file(alloc, &words, text, &mut causes)?;
    let target = target_of(alloc, &words, text)?;
    let mut means = Means {
        words,
        filed,
        target,
        own: None,
        told: None,
        causes,
    };
    if let Some(target) = target {
        open_sockets(alloc, target, &mut means)?;
    }
    Ok(means)
}

/// Makes the sockets of a client that asks so.
fn open_sockets(alloc: Global, target: Target, means: &mut Means) -> Result<(), Memory> {
    let own = SocketAddr::new(ip_of(target.own), 0);
    means.own = kept_socket(alloc, own, socket_at(own), &mut means.causes)?;
    let told = told_place(target.server);
    means.told = kept_socket(alloc, told, told_socket(told), &mut means.causes)?;
    if own.is_ipv6() != told.is_ipv6() {
        means
            .causes
            .push(families_cause(alloc, own.ip(), ip_of(target.server))?)?;
    }
    Ok(())
}

/// Runs a command of the client by these means.
pub(crate) fn ask_by<R: Wait>(
    waits: &R,
    rt: &HostRuntime,
    means: Means,
) -> Result<ToolStatus, Memory> {
    let alloc = rt.alloc();
    let Means {
        words,
        filed,
        own,
        told,
        ..
    } = means;
    let filed = filed.as_deref();
    let mut up = UdpOutbox::of(same_socket(&own));
    let mut from = client_inbox(alloc, own, told)?;
    let mut entropy = system_words(rt)?;
    let mut clock = clock_from_now(rt);
    let mut out = StdSink::new(rt.stdout());
    if may_keep(&words) {
        return Ok(run_keep(
            waits,
            alloc,
            &words,
            filed,
            &mut up,
            &mut from,
            &mut clock,
            &mut entropy,
            &mut out,
        ));
    }
    Ok(run_client(
        alloc,
        &words,
        filed,
        &mut up,
        &mut from,
        &mut clock,
        &mut entropy,
        &mut out,
    ))
}
