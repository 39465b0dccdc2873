//! One want of a client (RFC 6887, sections 8.1.1, 8.3, 8.5, 11.2.1, 14.1.3 and 15).
ghost use Rattle.std.specs.Prelude.{◌≡◌, ◌+◌, ◌*◌, ◌^◌, ◌<◌, ◌≤◌, Option, Some, [], IfOk, if◌then◌else◌};
ghost use Rattle.pcp_options.specs.Requests.{CanBeWritten, request_text};
ghost use Rattle.client_core.specs.declared.reasons.Reason.TheVariants as Reasons;
ghost use Rattle.client_core.specs.declared.events.Event.TheVariants as Events;
ghost use Rattle.client_core.specs.declared.events.TheConstants.{LONGEST_LEASE};
ghost use Rattle.client_core.specs.Wants.{CanBeWanted, IsReason, IsTimely, after, after_sent, anew_at, begun_want, by_end, deletion_of, due, due_by, is_over, is_over_by, lasting, lease_end, lease_of, next_ask, next_request, renewal_at, suggesting, without_lease};

use crate::events::{
    ANEW_WITHIN_MS, Event, Grant, HeldLease, LEAST_GAP_MS, LONGEST_LEASE, SHORTEST_ERROR,
};
use crate::reasons::Reason;
use crate::waits::next_wait;
use pcp_base::{Address, Ask, FilterList, MapAsk, Memory, Octets, PeerAsk};
use pcp_options::write_request;
use std::alloc::Global;
use std::marker::Model;

/// A want: what is asked for, and when next. Times are in the client's milliseconds.
#[derive(Drop)]
pub(crate) struct Want {
    third: Option<Address>,
    ask: Ask,
    ending: bool,
    lease: Option<HeldLease>,
    reason: Reason,
    time_ms: u64,
}

impl Model for Want {
    ghost use Rattle.client_core.specs.Wants.{IsWant, WantView};

    ghost Value = { WantView };

    ghost view = { λ w. record {
      third = w.third;
      ask = w.ask;
      ending = w.ending;
      lease = w.lease;
      reason = w.reason;
      time = w.time_ms;
    } };

    ghost invariant = { λ w. IsWant (record {
      third = w.third;
      ask = w.ask;
      ending = w.ending;
      lease = w.lease;
      reason = w.reason;
      time = w.time_ms;
    }) };
}

impl Want {
    /// A want that is asked for at once.
    pub(crate) fn begun(third: Option<Address>, ask: Ask, at_ms: u64) -> Want
        requires { CanBeWanted ask }
        ensures { result ≡ begun_want third ask at_ms }
    {
        Want {
            third,
            ask,
            ending: false,
            lease: None,
            reason: Reason::Wait(0),
            time_ms: at_ms,
        }
    }

    /// What is asked for, with what was granted last as its suggestion.
    pub(crate) fn ask(&self) -> &Ask
        ensures { result.now ≡ self.now.ask }
    {
        &self.ask
    }

    /// The host that it is for, where that isn't the client.
    pub(crate) fn third(&self) -> Option<Address>
        ensures { result ≡ self.now.third }
    {
        self.third
    }

    /// Whether its lease is to be deleted.
    pub(crate) fn is_ending(&self) -> bool
        ensures { result ≡ self.now.ending }
    {
        self.ending
    }

    /// The lease that it holds.
    pub(crate) fn lease(&self) -> Option<HeldLease>
        ensures { result ≡ self.now.lease }
    {
        self.lease
    }

    /// When it is asked for next.
    pub(crate) fn due(&self) -> u64
        ensures { result ≡ due self.now }
    {
        due_by(self.reason, self.lease, self.time_ms)
    }

    /// When it is asked for next, or loses its lease, whichever comes first.
    pub(crate) fn next_time(&self) -> u64
        ensures { result ≡ by_end self.now.lease self.now.time }
    {
        by_end(self.lease, self.time_ms)
    }

    /// Whether its lease is over at this time.
    pub(crate) fn is_over(&self, at_ms: u64) -> bool
        ensures { result ≡ is_over self.now at_ms }
    {
        match self.lease {
            Some(lease) => lease.until_ms <= at_ms,
            None => false,
        }
    }

    /// Its next request, of a client of the address `own`.
    pub(crate) fn request(&self, alloc: Global, own: &Address) -> Result<Octets, Memory>
        ensures { IfOk result (λ text. text ≡ next_request own.now self.now) }
    {
        if self.ending {
            let deletion = deletion_of(alloc, &self.ask);
            return request(alloc, own, self.third, &deletion);
        }
        request(alloc, own, self.third, &self.ask)
    }

    /// What an event makes of it.
    pub(crate) fn after(self, event: Event) -> Want
        requires { IsTimely event }
        ensures { result ≡ after self event }
    {
        match event {
            Event::Sent { at_ms, word } => self.after_sent(at_ms, word),
            Event::Taken { at_ms, word, grant } => self.after_taken(at_ms, word, grant),
            Event::Refused { at_ms, seconds } => {
                self.next(
                    Reason::Error,
                    at_ms + 1000 * u64::from(seconds.max(SHORTEST_ERROR)),
                )
            }
            Event::Ended { at_ms } => self.after_ended(at_ms),
            Event::Dropped => self.after_dropped(),
            Event::Invalid { at_ms, word } => self.next(Reason::Wait(0), anew_at(at_ms, word)),
        }
    }

    /// The want that is asked for next for this reason, at this time.
    fn next(self, reason: Reason, time_ms: u64) -> Want
        requires { IsReason reason }
        ensures { result ≡ record self { reason = reason; time = time_ms } }
    {
        Want {
            reason,
            time_ms,
            ..self
        }
    }

    /// After a request there is a wait, after a renewal the next renewal.
    fn after_sent(self, at_ms: u64, word: u32) -> Want
        requires { at_ms < 1000 * 2 ^ 40 }
        ensures { result ≡ after self (Events.Sent at_ms word) }
    {
        match self.reason {
            Reason::Wait(previous) => self.waiting(at_ms, previous, word),
            Reason::Error => self.waiting(at_ms, 0, word),
            Reason::Renewal(part) => self.renewing(at_ms, part, word),
        }
    }

    /// The want that waits for an answer, after a wait of `previous` milliseconds.
    fn waiting(self, at_ms: u64, previous: u64, word: u32) -> Want
        requires time { at_ms < 1000 * 2 ^ 40 }
        requires previous { IsReason (Reasons.Wait previous) }
        ensures { result ≡ after_sent self at_ms word (Reasons.Wait previous) }
    {
        let wait = next_wait(previous, word);
        self.next(Reason::Wait(wait), at_ms + wait)
    }

    /// The want whose lease is renewed once more.
    fn renewing(self, at_ms: u64, part: u64, word: u32) -> Want
        requires time { at_ms < 1000 * 2 ^ 40 }
        requires part { IsReason (Reasons.Renewal part) }
        ensures { result ≡ after_sent self at_ms word (Reasons.Renewal part) }
    {
        let left = part / 2;
        let time = renewal_at(self.end(), left, word);
        self.next(Reason::Renewal(left), time.max(at_ms + LEAST_GAP_MS))
    }

    /// When its lease ends.
    fn end(&self) -> u64
        ensures value { result ≡ lease_end self.now.lease }
        ensures bound { result ≤ 1000 * 2 ^ 40 + 1000 * LONGEST_LEASE }
    {
        match self.lease {
            Some(lease) => lease.until_ms,
            None => 0,
        }
    }

    fn after_taken(self, at_ms: u64, word: u32, grant: Grant) -> Want
        requires { at_ms < 1000 * 2 ^ 40 }
        ensures { result ≡ after self (Events.Taken at_ms word grant) }
    {
        let lasting = lasting(&grant);
        let part = lasting / 2;
        Want {
            third: self.third,
            ask: suggesting(self.ask, grant.external, grant.address),
            ending: self.ending,
            lease: Some(HeldLease {
                address: grant.address,
                external: grant.external,
                count: grant.count,
                until_ms: at_ms + lasting,
            }),
            reason: Reason::Renewal(part),
            time_ms: renewal_at(at_ms + lasting, part, word),
        }
    }

    fn after_ended(self, at_ms: u64) -> Want
        requires { at_ms < 1000 * 2 ^ 40 }
        ensures { result ≡ after self (Events.Ended at_ms) }
    {
        Want {
            ending: true,
            reason: Reason::Wait(0),
            time_ms: at_ms,
            ..self
        }
    }

    /// Without its lease it is asked for at once, unless an error's time lasts.
    fn after_dropped(self) -> Want
        ensures { result ≡ after self Events.Dropped }
    {
        let (reason, time_ms) = without_lease(self.reason, self.lease, self.time_ms);
        Want {
            lease: None,
            reason,
            time_ms,
            ..self
        }
    }
}

/// Why and when a want is asked for next whose lease is over.
fn without_lease(reason: Reason, lease: Option<HeldLease>, time_ms: u64) -> (Reason, u64)
    ensures { result ≡ without_lease reason lease time_ms }
{
    match reason {
        Reason::Error => (reason, time_ms),
        _ => (Reason::Wait(0), by_end(lease, time_ms)),
    }
}

fn due_by(reason: Reason, lease: Option<HeldLease>, time_ms: u64) -> u64
    ensures { result ≡ due_by reason lease time_ms }
{
    match reason {
        Reason::Error => time_ms,
        Reason::Wait(_wait) => by_end(lease, time_ms),
        Reason::Renewal(_part) => by_end(lease, time_ms),
    }
}

/// The time, or the end of the lease where that comes before.
fn by_end(lease: Option<HeldLease>, time_ms: u64) -> u64
    ensures { result ≡ by_end lease time_ms }
{
    match lease {
        Some(lease) => time_ms.min(lease.until_ms),
        None => time_ms,
    }
}

/// When a want is asked for anew after an invalid epoch.
fn anew_at(at_ms: u64, word: u32) -> u64
    requires { at_ms < 1000 * 2 ^ 40 }
    ensures { result ≡ anew_at at_ms word }
{
    at_ms + ANEW_WITHIN_MS * u64::from(word % 65_536) / 65_536
}

/// How many milliseconds a grant lasts.
fn lasting(grant: &Grant) -> u64
    ensures value { result ≡ lasting grant.now }
    ensures most { result ≤ 1000 * LONGEST_LEASE }
{
    1000 * u64::from(grant.lifetime.min(LONGEST_LEASE))
}

/// When a lease that ends at `until_ms` is renewed: when `part` milliseconds of it are left, less up to a
/// quarter of that, as the word says.
fn renewal_at(until_ms: u64, part: u64, word: u32) -> u64
    requires until { until_ms ≤ 1000 * 2 ^ 40 + 1000 * LONGEST_LEASE }
    requires part { part ≤ 1000 * LONGEST_LEASE }
    ensures { result ≡ renewal_at until_ms part word }
{
    until_ms.saturating_sub(part) + part / 4 * u64::from(word % 65_536) / 65_536
}

/// The ask that suggests this external port and address.
fn suggesting(ask: Ask, port: u16, address: Address) -> Ask
    ensures { result ≡ suggesting ask port address }
{
    match ask {
        Ask::Map(map) => Ask::Map(MapAsk {
            port,
            address,
            ..map
        }),
        Ask::Peer(peer) => Ask::Peer(PeerAsk {
            port,
            address,
            ..peer
        }),
        Ask::Known(refusal) => Ask::Known(refusal),
        Ask::Announce => Ask::Announce,
    }
}

/// The ask that asks for the deletion of what this one asks for.
fn deletion_of(alloc: Global, ask: &Ask) -> Ask
    ensures { result ≡ deletion_of ask.now }
{
    match ask {
        Ask::Map(map) => Ask::Map(MapAsk {
            endpoint: map.endpoint,
            nonce: map.nonce,
            lifetime: 0,
            port: map.port,
            address: map.address,
            prefer: false,
            set: map.set,
            filters: FilterList::of(Vec::new(alloc)),
        }),
        Ask::Peer(peer) => Ask::Peer(PeerAsk {
            lifetime: 0,
            ..*peer
        }),
        Ask::Known(refusal) => Ask::Known(*refusal),
        Ask::Announce => Ask::Announce,
    }
}

/// The request for an ask.
fn request(
    alloc: Global,
    own: &Address,
    third: Option<Address>,
    ask: &Ask,
) -> Result<Octets, Memory>
    requires { CanBeWritten ask.now }
    ensures { IfOk result (λ text. text ≡ request_text own.now third ask.now) }
{
    let mut text = Vec::new(alloc);
    write_request(alloc, &mut text, own, third, ask)?;
    Ok(Octets::of(text))
}
