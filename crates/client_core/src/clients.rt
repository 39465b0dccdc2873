//! The client (RFC 6887, sections 8.1 to 8.5, 11.2, 12.2 and 14.1.3).
ghost use Rattle.std.specs.Prelude.{◌≡◌, ℕ, ◌/◌, ◌*◌, ◌^◌, ◌<◌, Some, IfOk, IfSome, OnOk, OnErr, MatchResult, length, map, is_some};
ghost use Rattle.client_core.specs.EpochTests.{is_valid};
ghost use Rattle.client_core.specs.Wants.{CanBeWanted};
ghost use Rattle.client_core.specs.Meanings.{want_at};
ghost use Rattle.client_core.specs.Dues.{TicksFrom, next_due};
ghost use Rattle.client_core.specs.Clients.{after_asked, after_end, after_epoch, after_forget, after_heard, after_meaning, after_notice, after_tick, after_want, counted, dropped_in, epoch_found, first_due, free_id, heard_epoch_at, heard_of, heard_with, held_by, idle, is_soon, meaning_of, request_due, request_for, request_in, want_count};

use crate::epochs::EpochTest;
use crate::errors::WantRefused;
use crate::events::{ANEW_WITHIN_MS, Event, HeldLease};
use crate::meanings::{EpochFound, Heard, Meaning, Notice, What, said_by, what_of};
use crate::slots::{
    MOST_WANTS, after_asked, empty_slots, first_due, free_slot, happen_at, happen_to_all, is_kept,
    lease_at, least_next, remove_at, request_in, with_notice,
};
use crate::wants::Want;
use pcp_base::{Address, Ask, Datagram, Memory, Octets};
use pcp_options::{ResponseRefused, read_response};
use std::alloc::Global;
use std::marker::Model;

/// A client of one server. It keeps at most [`MOST_WANTS`] wants, each under an id, and says when each is
/// to be asked for. Times are in milliseconds, below 1000 * 2^40; one that is smaller than the last one
/// handed in counts as that one. Words are random ones.
#[derive(Drop)]
pub struct Client {
    server: Address,
    own: Address,
    last_ms: u64,
    test: EpochTest,
    moved_ms: Option<u64>,
    slots: Vec<Option<Want>>,
}

impl Model for Client {
    ghost use Rattle.client_core.specs.Clients as clients;

    ghost Value = { clients.ClientView };

    ghost view = { λ c. record {
      server = c.server;
      own = c.own;
      last = c.last_ms;
      heard = c.test;
      moved = c.moved_ms;
      wants = c.slots.items;
    } };

    ghost invariant = { λ c. clients.IsClient (record {
      server = c.server;
      own = c.own;
      last = c.last_ms;
      heard = c.test;
      moved = c.moved_ms;
      wants = c.slots.items;
    }) };
}

impl Client {
    /// A client of the address `own` that wants nothing from the server of this address.
    pub fn new(alloc: Global, server: Address, own: Address) -> Result<Client, Memory>
        ensures { IfOk result (λ client. client ≡ idle server own) }
    {
        let slots = empty_slots(alloc, MOST_WANTS)?;
        Ok(Client {
            server,
            own,
            last_ms: 0,
            test: EpochTest::new(),
            moved_ms: None,
            slots,
        })
    }

    /// Takes on a want, which is asked for at once: a MAP or PEER of another lifetime than 0, of at most
    /// 40 filters, for a third host where there is one. Its id is the least one that is free. Refused as
    /// full exactly where [`MOST_WANTS`] are kept, and then nothing changed; no memory is taken.
    pub fn want(
        &mut self,
        _alloc: Global,
        third: Option<Address>,
        ask: Ask,
        now_ms: u64,
    ) -> Result<u32, WantRefused>
        requires wanted { CanBeWanted ask }
        requires time { now_ms < 1000 * 2 ^ 40 }
        ensures answer { MatchResult result (λ id. free_id self.old ≡ Some id)
            (λ refused. refused ≡ WantRefused.Full) }
        ensures room { OnOk result (want_count self.old < 64) }
        ensures full { OnErr result (want_count self.old ≡ 64) }
        ensures after { IfOk result (λ id.
            self.new ≡ after_want self.old id third ask now_ms) }
        ensures err { OnErr result (self.new ≡ self.old) }
    {
        let Some(id) = free_slot(&self.slots) else {
            return Err(WantRefused::Full);
        };
        let at_ms = self.last_ms.max(now_ms);
        self.last_ms = at_ms;
        self.slots[id] = Some(Want::begun(third, ask, at_ms));
        Ok(id as u32)
    }

    /// Makes the want of this id ending: it is asked for with lifetime 0, without filters and without
    /// PREFER_FAILURE, at once and until a success with lifetime 0 removes it (RFC 6887, section 15).
    /// False exactly where there is no such want.
    pub fn end(&mut self, id: u32, now_ms: u64) -> bool
        requires { now_ms < 1000 * 2 ^ 40 }
        ensures there { result ≡ is_some (want_at self.old.wants id) }
        ensures after { self.new ≡ after_end self.old id now_ms }
    {
        let id = id as usize;
        let at_ms = self.last_ms.max(now_ms);
        self.last_ms = at_ms;
        let there = is_kept(&self.slots, id);
        happen_at(&mut self.slots, id, Event::Ended { at_ms });
        there
    }

    /// Gives the want of this id up, if there is one: it is gone at once with its lease, and nothing is
    /// asked. Its id is free then. Whether there was one.
    pub fn forget(&mut self, id: u32) -> bool
        ensures there { result ≡ is_some (want_at self.old.wants id) }
        ensures after { self.new ≡ after_forget self.old id }
    {
        let id = id as usize;
        let there = is_kept(&self.slots, id);
        remove_at(&mut self.slots, id);
        there
    }

    /// Takes a datagram that came, with a random word. The epoch of a response of the server that is for
    /// ANNOUNCE, or says something to a want, is tested; after an invalid one all wants are asked for anew
    /// within [`ANEW_WITHIN_MS`], all at one time, as the word says, with 0 at once; another invalid one
    /// within that time moves nothing. Then what it says is taken (RFC 6887, sections 8.3, 8.5 and
    /// 14.1.3). Any other datagram is not the client's, and changes the last time alone. After `Memory`
    /// nothing changed.
    pub fn heard(
        &mut self,
        alloc: Global,
        datagram: &Datagram,
        now_ms: u64,
        word: u32,
    ) -> Result<Heard, Memory>
        requires { now_ms < 1000 * 2 ^ 40 }
        ensures answer { IfOk result (λ heard. heard ≡ heard_of self.old datagram.now now_ms) }
        ensures after { OnOk result (self.new ≡ after_heard self.old datagram.now now_ms word) }
        ensures err { OnErr result (self.new ≡ self.old) }
    {
        let meaning = self.meaning(alloc, datagram)?;
        let at_ms = self.counted(now_ms);
        Ok(self.take_meaning(meaning, at_ms, word))
    }

    /// Drops the leases that are over, and gives the request of the want that is due first, with the least
    /// due time and then the least id; none where no want is due. The random word decides when it is due
    /// again. After `Memory` nothing changed.
    pub fn tick(&mut self, alloc: Global, now_ms: u64, word: u32) -> Result<Option<Octets>, Memory>
        requires { now_ms < 1000 * 2 ^ 40 }
        ensures answer { IfOk result (λ text. text ≡ request_due self.old now_ms) }
        ensures after { OnOk result (self.new ≡ after_tick self.old now_ms word) }
        ensures err { OnErr result (self.new ≡ self.old) }
    {
        let at_ms = self.counted(now_ms);
        let id = self.first_due(at_ms);
        let text = self.request_for(alloc, id)?;
        self.ask(at_ms, word, id);
        Ok(text)
    }

    /// The lease that the want of this id holds; none where it holds none, or there is no such want.
    pub fn held(&self, id: u32) -> Option<HeldLease>
        ensures { result ≡ held_by self.now id }
    {
        lease_at(&self.slots, id as usize)
    }

    /// From when on a tick does something, in milliseconds: it gives a request, or drops a lease that is
    /// over. None where no want is kept. Until then a caller may sleep, unless a datagram comes.
    pub fn next_due(&self) -> Option<u64>
        ensures value { result ≡ next_due self.now }
        ensures ticks { TicksFrom result self.now }
    {
        self.least_next()
    }

    /// The least time at which a want is asked for or loses its lease.
    fn least_next(&self) -> Option<u64>
        ensures { result ≡ next_due self.now }
    {
        least_next(&self.slots)
    }

    /// The time that counts where this one is handed in.
    fn counted(&self, now_ms: u64) -> u64
        requires { now_ms < 1000 * 2 ^ 40 }
        ensures value { result ≡ counted self.now now_ms }
        ensures bound { result < 1000 * 2 ^ 40 }
    {
        self.last_ms.max(now_ms)
    }

    /// What a datagram says.
    fn meaning(&self, alloc: Global, datagram: &Datagram) -> Result<Meaning, Memory>
        ensures { IfOk result (λ meaning. meaning ≡ meaning_of self.now datagram.now) }
    {
        if datagram.peer != self.server {
            return Ok(Meaning::Nothing);
        }
        match read_response(alloc, datagram.octets.items()) {
            Ok(response) => Ok(said_by(&self.slots, &response)),
            Err(ResponseRefused::NotResponse) => Ok(Meaning::Nothing),
            Err(ResponseRefused::Memory) => Err(Memory),
        }
    }

    /// Takes what a datagram says.
    fn take_meaning(&mut self, meaning: Meaning, at_ms: u64, word: u32) -> Heard
        requires { at_ms < 1000 * 2 ^ 40 }
        ensures answer { result ≡ heard_with self.old at_ms meaning }
        ensures after { self.new ≡ after_meaning self.old at_ms word meaning }
    {
        match meaning {
            Meaning::Nothing => self.take_nothing(at_ms),
            Meaning::Says(epoch, notice) => {
                let valid = self.hear(epoch, at_ms, word);
                self.take_notice(at_ms, word, notice);
                Heard {
                    epoch: epoch_found(valid),
                    what: what_of(notice),
                }
            }
        }
    }

    /// Takes a datagram that says nothing.
    fn take_nothing(&mut self, at_ms: u64) -> Heard
        requires { at_ms < 1000 * 2 ^ 40 }
        ensures answer { result ≡ heard_with self.old at_ms Meaning.Nothing }
        ensures after { self.new ≡ record self.old { last = at_ms } }
    {
        self.last_ms = at_ms;
        Heard {
            epoch: EpochFound::Unread,
            what: What::NotMine,
        }
    }

    /// Takes an epoch, and whether it is valid.
    fn hear(&mut self, epoch: u32, at_ms: u64, word: u32) -> bool
        requires { at_ms < 1000 * 2 ^ 40 }
        ensures valid { result ≡ is_valid self.old.heard (heard_epoch_at epoch at_ms) }
        ensures after { self.new ≡ after_epoch self.old epoch at_ms word }
    {
        self.last_ms = at_ms;
        let valid = self.test.hear(epoch, at_ms / 1000);
        if !valid && !is_soon(self.moved_ms, at_ms) {
            self.moved_ms = Some(at_ms);
            happen_to_all(&mut self.slots, Event::Invalid { at_ms, word });
        }
        valid
    }

    /// Takes what is said beside the epoch.
    fn take_notice(&mut self, at_ms: u64, word: u32, notice: Notice)
        requires { at_ms < 1000 * 2 ^ 40 }
        ensures { self.new ≡ after_notice self.old at_ms word notice }
    {
        with_notice(&mut self.slots, at_ms, word, notice);
    }

    /// The id of the want that is due first.
    fn first_due(&self, at_ms: u64) -> Option<usize>
        ensures { result ≡ first_due self.now.wants at_ms }
    {
        first_due(&self.slots, at_ms)
    }

    /// The request of the want in this id.
    fn request_for(&self, alloc: Global, id: Option<usize>) -> Result<Option<Octets>, Memory>
        ensures { IfOk result (λ text. text ≡ request_for self.now id) }
    {
        match id {
            Some(id) => request_in(alloc, &self.own, &self.slots, id),
            None => Ok(None),
        }
    }

    /// Drops the leases that are over, and asks for the want in this id.
    fn ask(&mut self, at_ms: u64, word: u32, id: Option<usize>)
        requires { at_ms < 1000 * 2 ^ 40 }
        ensures { self.new ≡ record self.old {
          last = at_ms;
          wants = after_asked (map (dropped_in at_ms) self.old.wants) at_ms word id;
        } }
    {
        self.last_ms = at_ms;
        after_asked(&mut self.slots, at_ms, word, id);
    }
}

/// Whether this is less than [`ANEW_WITHIN_MS`] behind the invalid epoch that last moved what is due.
fn is_soon(moved_ms: Option<u64>, at_ms: u64) -> bool
    ensures { result ≡ is_soon moved_ms at_ms }
{
    match moved_ms {
        Some(before) => at_ms.saturating_sub(before) < ANEW_WITHIN_MS,
        None => false,
    }
}

/// What is found of an epoch.
fn epoch_found(valid: bool) -> EpochFound
    ensures { result ≡ epoch_found valid }
{
    if valid {
        EpochFound::Valid
    } else {
        EpochFound::Invalid
    }
}
