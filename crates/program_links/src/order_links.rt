//! How a server that runs is asked: by the socket in the folder of its journals.
ghost use Rattle.std.specs.Prelude.{◌≡◌, ◌≤◌, IfOk, length};

use order_runs::{OrderFault, OrderLink};
use pcp_base::Octets;
use std::alloc::Global;
use std::io;
use std::io::{ErrorKind, Read, Write};
use std::os::unix::net::UnixStream;
use std::time::{Duration, Instant};

/// How long an order may take in all, but for one that is waited for without a limit, in seconds.
const LIMIT_SECONDS: u64 = 5;

/// The longest answer, in octets.
const LONGEST_ANSWER: usize = 1_048_576;

/// How many octets are read at most in one call.
const PIECE: usize = 4096;

/// What a read or a write ends with that waited too long.
const LATE: [ErrorKind; 2] = [ErrorKind::WouldBlock, ErrorKind::TimedOut];

/// The server whose UNIX socket has this path. It tells nothing of what it will answer. Each fault is
/// counted, and nothing else is; the count stands still at 2^64 - 1.
#[derive(Drop)]
pub struct UnixOrders<'a> {
    rt: &'a HostRuntime,
    path: String,
    /// why the last ask had no answer, where the system told it
    last: Option<io::Error>,
    faults: u64,
}

/// Why there is no answer.
#[derive(Drop)]
struct Unanswered {
    why: OrderFault,
    cause: Option<io::Error>,
}

impl From<io::Error> for Unanswered {
    /// Of a socket that is connected.
    fn from(error: io::Error) -> Unanswered {
        let why = if LATE.contains(&error.kind()) {
            OrderFault::Silent
        } else {
            OrderFault::Broken
        };
        Unanswered {
            why,
            cause: Some(error),
        }
    }
}

impl Unanswered {
    /// So, and the system told no more.
    fn by(why: OrderFault) -> Unanswered {
        Unanswered { why, cause: None }
    }

    /// There is no server at this path that this caller may ask.
    fn unconnected(error: io::Error) -> Unanswered {
        Unanswered {
            why: OrderFault::Silent,
            cause: Some(error),
        }
    }
}

impl<'a> UnixOrders<'a> {
    /// The server at this path, which is asked at each order. No fault is counted.
    pub fn new(rt: &'a HostRuntime, path: String) -> UnixOrders<'a> {
        UnixOrders {
            rt,
            path,
            last: None,
            faults: 0,
        }
    }

    /// Why the last order had no answer, where the system told it.
    pub fn last_error(&self) -> Option<&io::Error> {
        self.last.as_ref()
    }
}

/// A socket that is connected, and until when it may be asked.
#[derive(Drop)]
struct Asking<'a> {
    rt: &'a HostRuntime,
    socket: UnixStream,
    /// when it began, where there is a limit
    begun: Option<Instant>,
}

/// Connects to the server at this path.
fn connected<'a>(
    rt: &'a HostRuntime,
    path: &str,
    without_limit: bool,
) -> Result<Asking<'a>, Unanswered> {
    let socket = UnixStream::connect(rt, path).map_err(Unanswered::unconnected)?;
    let begun = if without_limit {
        None
    } else {
        Some(Instant::now(rt)?)
    };
    Ok(Asking { rt, socket, begun })
}

impl<'a> Asking<'a> {
    /// How much of the limit is left, where there is one.
    fn left(&self) -> Result<Option<Duration>, Unanswered> {
        let Some(begun) = self.begun else {
            return Ok(None);
        };
        let taken = begun.elapsed(self.rt)?;
        match Duration::from_secs(LIMIT_SECONDS).checked_sub(taken) {
            Some(left) if !left.is_zero() => Ok(Some(left)),
            _ => Err(Unanswered::by(OrderFault::Silent)),
        }
    }

    /// Hands the line over.
    fn say(&mut self, line: &[u8]) -> Result<(), Unanswered> {
        self.socket.set_write_timeout(self.left()?)?;
        self.socket.write_all(line)?;
        Ok(())
    }

    /// Reads what came next: how many octets, none where the server has closed the connection.
    fn hear(&mut self, piece: &mut [u8]) -> Result<usize, Unanswered>
        ensures fits { IfOk result (λ n. n ≤ length piece.new) }
        ensures same { length piece.new ≡ length piece.old }
    {
        self.socket.set_read_timeout(self.left()?)?;
        Ok(self.socket.read(piece)?)
    }

    /// Reads all that comes until the server closes the connection.
    fn hear_all(&mut self, alloc: Global) -> Result<Vec<u8>, Unanswered> {
        let mut answer = Vec::new(alloc);
        let mut piece = [0; PIECE];
        while answer.len() <= LONGEST_ANSWER {
            let count = self.hear(&mut piece)?;
            if count == 0 {
                return Ok(answer);
            }
            if answer.extend_from_slice(&piece[..count]).is_err() {
                return Err(Unanswered::by(OrderFault::Memory));
            }
        }
        Err(Unanswered::by(OrderFault::Broken))
    }
}

/// Asks the server at this path.
fn answer_of(
    rt: &HostRuntime,
    alloc: Global,
    path: &str,
    line: &[u8],
    without_limit: bool,
) -> Result<Vec<u8>, Unanswered> {
    let mut asking = connected(rt, path, without_limit)?;
    asking.say(line)?;
    asking.hear_all(alloc)
}

impl<'a> OrderLink for UnixOrders<'a> {
    ghost use Rattle.std.specs.Prelude.{None};

    ghost left = { λ _. None };

    ghost asked = { λ _. None };

    ghost faults = { λ s. s.faults };

    fn ask(
        &mut self,
        alloc: Global,
        line: &[u8],
        without_limit: bool,
    ) -> Result<Octets, OrderFault> {
        match answer_of(self.rt, alloc, self.path.as_str(), line, without_limit) {
            Ok(answer) => Ok(Octets::of(answer)),
            Err(Unanswered { why, cause }) => {
                self.faults = self.faults.saturating_add(1);
                self.last = cause;
                Err(why)
            }
        }
    }
}
