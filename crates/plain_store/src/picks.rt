//! Which ports are picked, by the leases and ends of the state at the moment that is reached.
ghost use Rattle.std.specs.Prelude.{◌≡◌, ◌+◌, ◌-◌, ◌≤◌, nat_le};
ghost use Rattle.std.specs.List.{list_all, range_with_len};
ghost use Rattle.std.specs.Option.{option_map};
ghost use Rattle.pcp_base.specs.declared.configs.TheConstants.{MOST_QUOTA};
ghost use Rattle.pcp_base.specs.Ends.{rests};
ghost use Rattle.pcp_base.specs.Owners.{owned};
ghost use Rattle.pcp_base.specs.Reached.{IsReached};
ghost use Rattle.external_pool.specs.Asking as asking;
ghost use Rattle.lease_store.specs.Lookups.{with_port};
ghost use Rattle.lease_store.specs.Picks as picks;

use crate::counts::owned;
use crate::owned::is_owned;
use crate::rests::{rests, rests_for_another};
use crate::store::PlainStore;
use external_pool::{PickAsk, PickRefused, Picked};
use pcp_base::{Address, Endpoint, Protocol};

/// Whether the number has the remainder by 2 that is asked, if one is.
fn has_parity(parity: Option<u8>, n: u16) -> bool
    ensures { result ≡ picks.has_parity parity n }
{
    match parity {
        Some(remainder) => n % 2 == u16::from(remainder),
        None => true,
    }
}

/// Whether it is all that was asked for and what was suggested.
fn is_as_asked(ask: &PickAsk, choice: Option<Picked>) -> bool
    ensures { result ≡ asking.is_as_asked ask.now choice }
{
    match choice {
        None => false,
        Some(run) => {
            run.count == ask.asked && (ask.suggested == 0 || ask.suggested == run.start) && ask.here
        }
    }
}

/// The answer to an ask for which these ports would be picked.
fn answer_to(ask: &PickAsk, choice: Option<Picked>) -> Result<Picked, PickRefused>
    ensures { result ≡ asking.answer_to ask.now choice }
{
    if ask.must && !is_as_asked(ask, choice) {
        return Err(PickRefused::CannotProvide);
    }
    match choice {
        None => Err(PickRefused::NoPort),
        Some(run) => Ok(run),
    }
}

impl PlainStore {
    /// Whether the port is in the range, and no live lease of its protocol owns it.
    fn is_unowned_at(&self, protocol: Protocol, port: u32) -> bool
        ensures { result ≡ picks.is_unowned_at self.now.terms self.now.state self.now.reached
            protocol port }
    {
        let external = &self.terms.external;
        u32::from(external.low) <= port
            && port <= u32::from(external.high)
            && !is_owned(&self.replay, self.reached, protocol, port)
    }

    /// Whether the port rests for some endpoint.
    fn rests(&self, protocol: Protocol, port: u32) -> bool
        ensures { result ≡ rests self.now.state self.now.reached protocol port }
    {
        rests(&self.replay, self.reached, protocol, port)
    }

    /// Whether the port rests for another endpoint than this one with the internal port `internal`.
    fn rests_for_another(&self, port: u32, endpoint: &Endpoint, internal: u32) -> bool
        requires { IsReached self.now.state }
        ensures { result ≡ picks.rests_for_another self.now.state self.now.reached port
            (with_port endpoint.now internal) }
    {
        rests_for_another(&self.replay, self.reached, port, endpoint, internal)
    }

    /// Whether the port is in the range, no live lease owns it, and it rests for no endpoint.
    fn is_vacant_at(&self, protocol: Protocol, port: u32) -> bool
        ensures { result ≡ picks.is_vacant_at self.now.terms self.now.state self.now.reached
            protocol port }
    {
        self.is_unowned_at(protocol, port) && !self.rests(protocol, port)
    }

    /// Whether the port is in the range, no live lease owns it, and it rests for no other endpoint
    /// than this one with the internal port `internal`.
    fn is_open_at(&self, endpoint: &Endpoint, internal: u32, port: u32) -> bool
        requires { IsReached self.now.state }
        ensures { result ≡ picks.is_open_at self.now.terms self.now.state self.now.reached
            (with_port endpoint.now internal) port }
    {
        self.is_unowned_at(endpoint.protocol, port)
            && !self.rests_for_another(port, endpoint, internal)
    }

    /// Whether each of the `n` ports from `start` on is open to the endpoint that it would be given
    /// to.
    fn are_open(&self, endpoint: &Endpoint, start: u16, n: u32) -> bool
        requires sound { IsReached self.now.state }
        requires few { n ≤ MOST_QUOTA }
        ensures { result ≡ list_all
            (picks.is_open_from self.now.terms self.now.state self.now.reached endpoint.now start)
            (range_with_len 0 n) }
    {
        for i in 0..n {
            if !self.is_open_at(endpoint, u32::from(endpoint.port) + i, u32::from(start) + i) {
                return false;
            }
        }
        true
    }

    /// Whether each of the `n` ports from `start` on is open to the endpoint that it would be given
    /// to, and `start` meets the parity asked.
    fn goes_back(&self, endpoint: &Endpoint, parity: Option<u8>, start: u16, n: u32) -> bool
        requires sound { IsReached self.now.state }
        requires few { n ≤ MOST_QUOTA }
        ensures { result ≡ picks.goes_back self.now.terms self.now.state self.now.reached
            endpoint.now parity start n }
    {
        has_parity(parity, start) && self.are_open(endpoint, start, n)
    }

    /// Whether the `n` ports from `start` on are vacant.
    fn are_vacant(&self, protocol: Protocol, n: u32, start: u16) -> bool
        requires { n ≤ MOST_QUOTA }
        ensures { result ≡ list_all
            (picks.is_vacant_at self.now.terms self.now.state self.now.reached protocol)
            (range_with_len start n) }
    {
        let first = u32::from(start);
        for port in first..first + n {
            if !self.is_vacant_at(protocol, port) {
                return false;
            }
        }
        true
    }

    /// Whether the `n` ports from `start` on are vacant, and `start` meets the parity asked.
    fn is_vacant_run(&self, protocol: Protocol, parity: Option<u8>, n: u32, start: u16) -> bool
        requires { n ≤ MOST_QUOTA }
        ensures { result ≡ picks.is_vacant_run self.now.terms self.now.state self.now.reached
            protocol parity n start }
    {
        has_parity(parity, start) && self.are_vacant(protocol, n, start)
    }

    /// The least start of the range from which `n` ports are vacant.
    fn first_vacant(&self, protocol: Protocol, parity: Option<u8>, n: u32) -> Option<u16>
        requires { n ≤ MOST_QUOTA }
        ensures { result ≡ picks.first_vacant self.now.terms self.now.state self.now.reached
            protocol parity n }
    {
        for start in self.terms.external.low..=self.terms.external.high {
            if self.is_vacant_run(protocol, parity, n, start) {
                return Some(start);
            }
        }
        None
    }

    /// The `n` ports from the least start of the range from which `n` are vacant.
    fn run(&self, protocol: Protocol, parity: Option<u8>, n: u32) -> Option<Picked>
        requires { n ≤ MOST_QUOTA }
        ensures { result ≡ option_map (picks.run_of n) (picks.first_vacant self.now.terms
            self.now.state self.now.reached protocol parity n) }
    {
        let start = self.first_vacant(protocol, parity, n)?;
        Some(Picked { start, count: n })
    }

    /// The greatest number of ports, from 1 to `room`, that are vacant in a row from some start
    /// that meets the parity asked, and the least such start.
    fn longest_run(&self, protocol: Protocol, parity: Option<u8>, room: u32) -> Option<Picked>
        requires { room ≤ MOST_QUOTA }
        ensures { result ≡ picks.longest_run self.now.terms self.now.state self.now.reached
            protocol parity room }
    {
        for less in 0..room {
            if let Some(found) = self.run(protocol, parity, room - less) {
                return Some(found);
            }
        }
        None
    }

    /// The suggested ports, where one is suggested and they can go back; else the longest run.
    #[tactic(auto, unfolding(lease_store::specs::Picks::pick))]
    fn pick_with(
        &self,
        endpoint: &Endpoint,
        suggested: u16,
        parity: Option<u8>,
        room: u32,
    ) -> Option<Picked>
        requires sound { IsReached self.now.state }
        requires few { room ≤ MOST_QUOTA }
        ensures { result ≡ picks.pick self.now.terms self.now.state self.now.reached endpoint.now
            suggested parity room }
    {
        if suggested != 0 && self.goes_back(endpoint, parity, suggested, room) {
            return Some(Picked {
                start: suggested,
                count: room,
            });
        }
        self.longest_run(endpoint.protocol, parity, room)
    }

    /// Whether the address owns as many ports as its quota allows.
    pub(crate) fn owns_quota(&self, who: &Address) -> bool
        requires { IsReached self.now.state }
        ensures { result ≡ nat_le self.now.terms.quota
            (owned self.now.state.table self.now.reached who.now) }
    {
        self.terms.quota <= owned(&self.replay, self.reached, who)
    }

    /// What is answered to an ask for ports.
    pub(crate) fn answer(&self, endpoint: &Endpoint, ask: &PickAsk) -> Result<Picked, PickRefused>
        requires { IsReached self.now.state }
        ensures { result ≡ picks.pick_answer self.now.terms self.now.state self.now.reached
            endpoint.now ask.now }
    {
        let count = owned(&self.replay, self.reached, &endpoint.address);
        if self.terms.quota <= count {
            return Err(PickRefused::Quota(count));
        }
        let room = ask.room.min(self.terms.quota - count);
        let choice = self.pick_with(endpoint, ask.suggested, ask.parity, room);
        answer_to(ask, choice)
    }
}
