//! The socket of orders in the folder of journals.
use crate::inboxes::{NO_DESCRIPTOR, asked_of};
use crate::order_lines::{OrderLine, read_order_line};
use crate::sockets::ended;
use libc::{fchmod, net as c};
use pcp_base::Memory;
use pcp_io::{Clock, SteadyClock};
use std::io::{ErrorKind, Read, Write};
use std::net::Net;
use std::os::fd::{AsFd, AsRawFd};
use std::os::unix::fs::{FileTypeExt, MetadataExt};
use std::os::unix::net::{SocketAddr, UnixListener, UnixStream};
use std::rt::Files;
use std::{fs, io};

/// How many connections there are at once.
const MOST_CALLERS: usize = 8;

/// How many descriptors the system is asked of: one at which connections come, and these.
pub(crate) const MOST_ASKED: usize = MOST_CALLERS + 1;

/// How long a connection has for its line, in milliseconds.
const LINE_MS: u64 = 1000;

/// The most octets of a line, its line feed among them.
const LONGEST_LINE: usize = 64;

/// How many connections may wait for their turn.
const BACKLOG: i32 = 128;

/// How many connections at most wait for a loss when one more is ordered, so that others have a place.
const MOST_WAITING: usize = 4;

/// What is answered where nothing is done.
const REFUSED: &[u8] = b"refused\n";

/// What came by a connection.
#[derive(Clone, Copy)]
enum Heard {
    /// Its line isn't there yet.
    Nothing,
    /// Its line.
    Line(OrderLine),
    /// What is no line of an order, or nothing in time.
    Refused,
    /// It is broken.
    Gone,
}

/// A connection, and what came of its line.
#[derive(Drop)]
struct Caller {
    stream: UnixStream,
    line: [u8; LONGEST_LINE],
    length: usize,
    // until when its line is waited for, in milliseconds of the door's clock
    until: u64,
    // the number of its order, once it is there
    order: Option<u32>,
}

impl Caller {
    /// Whether its line was waited for long enough.
    fn is_late(&self, time: u64) -> bool {
        self.order.is_none() && self.until <= time
    }

    /// Takes what has come.
    fn hear(&mut self) -> Heard {
        let Some(room) = self.line.get_mut(self.length..) else {
            return Heard::Refused;
        };
        match self.stream.read(room) {
            Ok(0) => Heard::Refused,
            Ok(count) => {
                self.length = self.length.saturating_add(count);
                self.heard()
            }
            Err(error) if is_pause(&error) => Heard::Nothing,
            Err(_) => Heard::Gone,
        }
    }

    /// What came of its line so far.
    fn heard(&self) -> Heard {
        let Some(line) = self.line.get(..self.length) else {
            return Heard::Refused;
        };
        if let Some(order) = read_order_line(line) {
            return Heard::Line(order);
        }
        if line.contains(&b'\n') || self.length == LONGEST_LINE {
            return Heard::Refused;
        }
        Heard::Nothing
    }

    /// Whether it waits for an answer that nobody reads any more.
    fn is_left(&self) -> bool {
        if self.order.is_none() {
            return false;
        }
        let mut asked = [asked_of(self.stream.as_raw_fd())];
        let _count = c::poll(&mut asked, 0);
        let [found] = asked;
        found.revents & c::POLLHUP != 0
    }

    /// Tells it this, where the system takes it at once, and closes it.
    fn tell(self, text: &[u8]) {
        let mut stream = self.stream;
        let _ = stream.write_all(text);
    }
}

/// Whether a call is to be made again later.
fn is_pause(error: &io::Error) -> bool {
    [ErrorKind::WouldBlock, ErrorKind::Interrupted].contains(&error.kind())
}

/// The socket of orders in a folder, which only its owner may use. At most 8 connections are there at once,
/// and others wait for a place; each has a second for its one line, of at most 64 octets, and is then answered
/// and closed. A loss is refused while 4 wait for an answer. No call waits.
#[derive(Drop)]
pub(crate) struct OrderDoor<'a> {
    rt: &'a HostRuntime,
    path: String,
    clock: SteadyClock,
    listener: Option<UnixListener>,
    // whether the system gave no connection at the last wait, so that the next one is without it
    rests: bool,
    callers: Vec<Caller>,
    // the number of the last order
    last: u32,
    // who ordered the stop
    stopped: Vec<UnixStream>,
    // the device and the number of the socket in its folder
    own: Option<(u64, u64)>,
}

impl<'a> OrderDoor<'a> {
    /// The socket `orders` of this folder, which isn't made yet. The one error is want of memory.
    pub(crate) fn of(rt: &'a HostRuntime, folder: &str) -> Result<OrderDoor<'a>, Memory> {
        let alloc = rt.alloc();
        Ok(OrderDoor {
            rt,
            path: format!(in alloc; "{folder}/orders")?,
            clock: SteadyClock::starting_at(0),
            listener: None,
            rests: false,
            callers: Vec::with_capacity(alloc, MOST_CALLERS)?,
            last: 0,
            stopped: Vec::with_capacity(alloc, MOST_ASKED)?,
            own: None,
        })
    }

    /// Tells an operator why the socket can't be made.
    pub(crate) fn tell_fault(&self, error: &io::Error) {
        let _ = eprintln!(self.rt; "pcp: {}: {error}", self.path.as_str());
    }

    /// Whether the socket was made.
    pub(crate) fn is_open(&self) -> bool {
        self.listener.is_some()
    }

    /// Makes the socket. One that a server left is removed first.
    pub(crate) fn open(&mut self) -> io::Result<()> {
        remove_old(self.rt, self.path.as_str())?;
        self.listener = Some(listener_at(self.rt, self.path.as_str())?);
        self.own = socket_in(self.rt, self.path.as_str());
        Ok(())
    }

    /// The descriptors that the system is asked of.
    pub(crate) fn asked(&self) -> [i32; MOST_ASKED] {
        let mut asked = [NO_DESCRIPTOR; MOST_ASKED];
        let (first, others) = asked.split_at_mut(1);
        match &self.listener {
            Some(listener) if !self.rests && self.has_place() => {
                first.fill(listener.as_raw_fd());
            }
            _ => {}
        }
        for (place, caller) in others.iter_mut().zip(self.callers.iter()) {
            if caller.order.is_none() {
                *place = caller.stream.as_raw_fd();
            }
        }
        asked
    }

    /// The next order that has come whole, and its number; none where none has.
    pub(crate) fn take(&mut self) -> Option<(u32, OrderLine)> {
        let time = self.clock.now();
        self.admit(time);
        // The one that comes in the place of one that goes was heard before.
        for place in (0..MOST_CALLERS).rev() {
            match self.heard_at(place, time) {
                Some(Heard::Line(OrderLine::Lose(_))) if self.is_crowded() => {
                    self.tell(place, REFUSED);
                }
                Some(Heard::Line(line)) => return Some((self.number(place, line), line)),
                Some(Heard::Refused) => self.tell(place, REFUSED),
                Some(Heard::Gone) => drop(self.remove(place)),
                Some(Heard::Nothing) | None => {}
            }
        }
        None
    }

    /// Whether one more connection may come.
    fn has_place(&self) -> bool {
        self.callers.len() < MOST_CALLERS
    }

    /// Whether so many wait for an answer that no further loss is ordered.
    fn is_crowded(&self) -> bool {
        let waiting = self
            .callers
            .iter()
            .filter(|caller| caller.order.is_some())
            .count();
        waiting >= MOST_WAITING
    }

    /// Takes the connection at this place out, if there is one.
    fn remove(&mut self, place: usize) -> Option<Caller> {
        if place < self.callers.len() {
            Some(self.callers.swap_remove(place))
        } else {
            None
        }
    }

    /// Tells the connection at this place something, and closes it.
    fn tell(&mut self, place: usize, text: &[u8]) {
        if let Some(caller) = self.remove(place) {
            caller.tell(text);
        }
    }

    /// What came by the connection at this place; none where there is none.
    fn heard_at(&mut self, place: usize, time: u64) -> Option<Heard> {
        let caller = self.callers.get_mut(place)?;
        if caller.is_left() {
            return Some(Heard::Gone);
        }
        if caller.order.is_some() {
            return Some(Heard::Nothing);
        }
        match caller.hear() {
            Heard::Nothing if caller.is_late(time) => Some(Heard::Gone),
            heard => Some(heard),
        }
    }

    /// Takes the connections that wait for a place, as far as there is one.
    fn admit(&mut self, time: u64) {
        self.rests = false;
        for _ in 0..MOST_CALLERS {
            if !self.has_place() {
                return;
            }
            let Some(listener) = &self.listener else {
                return;
            };
            match listener.accept() {
                Ok((stream, _)) => self.welcome(stream, time),
                Err(error) => {
                    self.rests = !is_pause(&error);
                    return;
                }
            }
        }
    }

    /// A connection that has come.
    fn welcome(&mut self, stream: UnixStream, time: u64) {
        if stream.set_nonblocking(true).is_err() {
            return;
        }
        let caller = Caller {
            stream,
            line: [0; LONGEST_LINE],
            length: 0,
            until: time.saturating_add(LINE_MS),
            order: None,
        };
        let _ = self.callers.push(caller);
    }

    /// The number of the order that came by the connection at this place. That of a stop stays open.
    fn number(&mut self, place: usize, line: OrderLine) -> u32 {
        self.last = self.last.checked_add(1).unwrap_or(1);
        if line == OrderLine::Stop {
            if let Some(caller) = self.remove(place) {
                let _ = self.stopped.push(caller.stream);
            }
        } else if let Some(caller) = self.callers.get_mut(place) {
            caller.order = Some(self.last);
        }
        self.last
    }

    /// Answers the order of this number, and closes its connection.
    pub(crate) fn answer(&mut self, order: u32, text: &[u8]) {
        let place = self
            .callers
            .iter()
            .position(|caller| caller.order == Some(order));
        if let Some(place) = place {
            self.tell(place, text);
        }
    }

    /// Refuses all that wait, but for a stop, and removes the socket, if it is the one that was made. The
    /// connections that ordered the stop are handed back.
    pub(crate) fn end(self) -> Vec<UnixStream> {
        let mut door = self;
        let time = door.clock.now();
        door.admit(time);
        let OrderDoor {
            rt,
            path,
            callers,
            mut stopped,
            own,
            ..
        } = door;
        for mut caller in callers {
            match caller.hear() {
                Heard::Line(OrderLine::Stop) => {
                    let _ = stopped.push(caller.stream);
                }
                _ => caller.tell(REFUSED),
            }
        }
        if own.is_some() && socket_in(rt, path.as_str()) == own {
            let _ = fs::remove_file(rt, path.as_str());
        }
        stopped
    }
}

/// The device and the number of the socket that stands there; none where there is none.
fn socket_in(rt: &HostRuntime, path: &str) -> Option<(u64, u64)> {
    let found = fs::symlink_metadata(rt, path).ok()?;
    if found.file_type().is_socket() {
        Some((found.dev(), found.ino()))
    } else {
        None
    }
}

/// Removes a socket that stands there. What isn't one stays.
fn remove_old(rt: &HostRuntime, path: &str) -> io::Result<()> {
    match fs::symlink_metadata(rt, path) {
        Ok(found) if found.file_type().is_socket() => fs::remove_file(rt, path),
        Ok(_) => Ok(()),
        Err(error) if error.kind() == ErrorKind::NotFound => Ok(()),
        Err(error) => Err(error),
    }
}

/// A socket of this path at which connections come. Its mode is set before it has the path, so that nobody
/// else can use it at any time.
fn listener_at(rt: &HostRuntime, path: &str) -> io::Result<UnixListener> {
    let at = SocketAddr::from_pathname(path)?;
    let socket = rt.unix_socket()?;
    ended(fchmod(socket.as_raw_fd(), 0o600))?;
    rt.bind_unix(socket.as_fd(), &at)?;
    ended(c::listen(socket.as_raw_fd(), BACKLOG))?;
    let listener = UnixListener::from(socket);
    listener.set_nonblocking(true)?;
    Ok(listener)
}
