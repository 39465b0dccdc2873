//! A program that keeps ports of its host open: the example of docs/EMBEDDING.md.
#![tactic(auto)]

ghost use Rattle.std.specs.Prelude.{◌*◌, ◌^◌, ◌<◌, ◌≤◌, length};
ghost use Rattle.pcp_base.specs.declared.asks.Ask.TheVariants as Asks;
ghost use Rattle.pcp_io.specs.declared.inboxes.TheConstants.{LONGEST_DATAGRAM};
ghost use Rattle.client_core.specs.Wants.{CanBeWanted};

use client_core::{Client, EpochFound, What};
use pcp_base::{
    Address, Ask, Datagram, Endpoint, FilterList, MapAsk, Memory, Nonce, Octets, PortSet, Protocol,
    read_number,
};
use pcp_io::{Clock, Inbox, Incoming, LONGEST_DATAGRAM, Outbox, UdpOutbox};
use program_links::{
    client_inbox, clock_from_now, ip_of, same_socket, socket_at, told_place, told_socket,
};
use random_words::{Entropy, FileEntropy};
use std::alloc::{AllocError, Global};
use std::net::SocketAddr;
use std::process::ExitCode;
use std::{env, io};

/// The port at which servers are asked (RFC 6887, section 19.1).
const SERVER_PORT: u16 = 5351;

/// For how many seconds ports are asked for. They are renewed when half of that is over.
const LIFETIME_S: u32 = 3_600;

/// What is to be kept, and for how long.
#[derive(Clone, Copy)]
struct Plan {
    server: Address,
    own: Address,
    /// The first port, of UDP; at least 1.
    port: u16,
    /// How many ports, at least 1.
    count: u16,
    seconds: u32,
}

/// Why the program ends.
#[derive(Drop)]
enum Ended {
    Words,
    Socket(io::Error),
    Memory,
    Random,
    Link,
}

impl From<Memory> for Ended {
    fn from(_error: Memory) -> Ended {
        Ended::Memory
    }
}

impl From<AllocError> for Ended {
    fn from(_error: AllocError) -> Ended {
        Ended::Memory
    }
}

fn main(rt: HostRuntime) -> ExitCode {
    let Err(ended) = run(&rt) else {
        return ExitCode::from(0);
    };
    let _ = match ended {
        Ended::Words => eprintln!(rt; "usage: host_keeper SERVER OWN PORT COUNT SECONDS"),
        Ended::Socket(error) => eprintln!(rt; "no socket: {error}"),
        Ended::Memory => eprintln!(rt; "out of memory"),
        Ended::Random => eprintln!(rt; "no random word"),
        Ended::Link => eprintln!(rt; "nothing can be heard"),
    };
    ExitCode::from(1)
}

fn run(rt: &HostRuntime) -> Result<(), Ended> {
    let Some(plan) = plan_in(rt) else {
        return Err(Ended::Words);
    };
    keep(rt, plan)
}

/// What the words say: the server's address, the host's own, the first port, how many, and the seconds.
fn plan_in(rt: &HostRuntime) -> Option<Plan> {
    let mut words = env::args(rt).ok()?.skip(1);
    let server = Address::read(words.next()?.as_bytes()).ok()?;
    let own = Address::read(words.next()?.as_bytes()).ok()?;
    let port = number_in(words.next()?.as_str(), 65_535)?;
    let count = number_in(words.next()?.as_str(), 65_535)?;
    let seconds = number_in(words.next()?.as_str(), 86_400)?;
    Some(Plan {
        server,
        own,
        port: u16::try_from(port).ok()?,
        count: u16::try_from(count).ok()?,
        seconds: u32::try_from(seconds).ok()?,
    })
}

/// A whole number from 1 to `most`.
fn number_in(text: &str, most: u64) -> Option<u64> {
    let number = read_number(text.as_bytes(), most)?;
    if number > 0 { Some(number) } else { None }
}

/// Keeps what is wanted until its time is over.
fn keep(rt: &HostRuntime, plan: Plan) -> Result<(), Ended> {
    let alloc = rt.alloc();
    // Requests leave from the address that is to be mapped, and replies come there. What the server
    // announces comes to port 5350, which other clients of this host have too.
    let own = socket_at(SocketAddr::new(ip_of(plan.own), 0)).map_err(Ended::Socket)?;
    let told = told_socket(told_place(plan.server)).map_err(Ended::Socket)?;
    let own = Some(own);
    let mut up = UdpOutbox::of(same_socket(&own));
    let mut from = client_inbox(alloc, own, Some(told))?;
    // A clock that no step of the system's time moves, and that counts while the host sleeps.
    let mut clock = clock_from_now(rt);
    let mut words = FileEntropy::new(rt, String::from_str(alloc, "/dev/urandom")?);

    let ask = ask_of(alloc, plan, nonce_of(&mut words)?);
    let mut client = Client::new(alloc, plan.server, plan.own)?;
    let began = clock.now();
    let Ok(id) = client.want(alloc, None, ask, began) else {
        return Err(Ended::Memory);
    };
    let mut room = [0; LONGEST_DATAGRAM];
    for _ in 0..u64::MAX {
        let now = clock.now();
        if now >= began + 1_000 * u64::from(plan.seconds) {
            break;
        }
        send_due(alloc, &mut client, now, &mut words, &mut up, plan.server)?;
        // It waits for a datagram, at most a tenth of a second. A program with a wait of its own may
        // sleep until `next_due`.
        let incoming = from.take(&mut room).map_err(|_| Ended::Link)?;
        let Some(datagram) = datagram_of(alloc, incoming, &room)? else {
            continue;
        };
        let word = words.word().map_err(|_| Ended::Random)?;
        let heard = client.heard(alloc, &datagram, clock.now(), word)?;
        if heard.epoch == EpochFound::Invalid {
            let _ = println!(rt; "the server lost its leases: the ports may be another host's");
        }
        tell(rt, &client, id, heard.what);
    }
    Ok(())
}

/// A nonce of three random words: who knows it can delete the mapping.
fn nonce_of<E: Entropy>(words: &mut E) -> Result<Nonce, Ended> {
    let mut octets = [0; 12];
    for place in 0..3 {
        let word = words.word().map_err(|_| Ended::Random)?;
        octets[4 * place..4 * place + 4].copy_from_slice(&word.to_be_bytes());
    }
    Ok(Nonce(octets))
}

/// No address, of the family of this one.
fn none_of(own: Address) -> Address {
    if ip_of(own).is_ipv4() {
        Address::v4(0, 0, 0, 0)
    } else {
        Address([0; 16])
    }
}

/// The request for these ports. No external port and address are suggested.
fn ask_of(alloc: Global, plan: Plan, nonce: Nonce) -> Ask
    ensures { CanBeWanted result }
{
    let set = PortSet {
        size: plan.count,
        first: plan.port,
        parity: false,
    };
    Ask::Map(MapAsk {
        endpoint: Endpoint {
            address: plan.own,
            protocol: Protocol::Udp,
            port: plan.port,
        },
        nonce,
        lifetime: LIFETIME_S,
        port: 0,
        address: none_of(plan.own),
        prefer: false,
        set: if plan.count > 1 { Some(set) } else { None },
        filters: FilterList::of(Vec::new(alloc)),
    })
}

/// Sends what is due, with a random word for each request: by it hosts don't ask all at once.
fn send_due<E: Entropy, O: Outbox>(
    alloc: Global,
    client: &mut Client,
    now_ms: u64,
    words: &mut E,
    up: &mut O,
    server: Address,
) -> Result<(), Ended>
    requires { now_ms < 1000 * 2 ^ 40 }
{
    match client.next_due() {
        Some(due) if due <= now_ms => {}
        _ => return Ok(()),
    }
    let word = words.word().map_err(|_| Ended::Random)?;
    if let Some(octets) = client.tick(alloc, now_ms, word)? {
        // One that isn't sent is sent again, as one that is lost.
        let _ = up.send(0, server, SERVER_PORT, octets.items());
    }
    Ok(())
}

/// The datagram that came, if one did. IPv4 addresses are IPv4-mapped in it.
fn datagram_of(alloc: Global, incoming: Incoming, room: &[u8]) -> Result<Option<Datagram>, Memory> {
    let Incoming::Packet {
        peer,
        port,
        door,
        length,
    } = incoming
    else {
        return Ok(None);
    };
    let Some(octets) = room.get(..length) else {
        return Ok(None);
    };
    Ok(Some(Datagram {
        peer,
        port,
        door,
        octets: Octets::of(octets.to_vec(alloc)?),
    }))
}

/// Tells what a datagram said of the ports.
fn tell(rt: &HostRuntime, client: &Client, id: u32, what: What) {
    match what {
        What::Taken(_) => match client.held(id) {
            Some(lease) => {
                let ip = ip_of(lease.address);
                let _ = println!(rt; "{ip}: {} ports from {} on", lease.count, lease.external);
            }
            None => {
                let _ = println!(rt; "no ports any more");
            }
        },
        What::ErrorFor(_, code, seconds) => {
            let code = code.number();
            let _ = println!(rt; "refused with code {code} for {seconds} seconds");
        }
        What::Told | What::NotMine => {}
    }
}
