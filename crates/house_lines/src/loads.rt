//! A house on one thread serves the requests of a load.
ghost use Rattle.std.specs.Prelude.{◌≡◌, max};
ghost use Rattle.house_lines.specs.LoadFindings.{is_met, kind_met, kind_told};

use crate::lines::HouseLines;
use crate::seen::SeenHouse;
use lease_disk::LeaseDisk;
use lease_house::{Routed, read_datagram};
use load_player::{LoadAnswerer, LoadReply};
use load_summary::LoadKind;
use pcp_base::{Ask, Datagram, Memory, Moment, Octets};
use script_player::AnswerFault;
use std::alloc::Global;

/// How a request that was met counts, by whether a lease covered its endpoint before it.
fn kind_met(deletes: bool, there: bool) -> LoadKind
    ensures { result ≡ kind_met deletes there }
{
    match (deletes, there) {
        (true, true) => LoadKind::Deleted,
        (true, false) => LoadKind::Absent,
        (false, true) => LoadKind::Renewed,
        (false, false) => LoadKind::Granted,
    }
}

/// Whether a reply tells that a request was met.
fn is_met(reply: &[u8]) -> bool
    ensures { result ≡ is_met reply.now }
{
    reply.get(3).is_none_or(|code| *code == 0)
}

/// How a request counts that was told this, by whether there was a lease for it.
fn kind_of(request: &Routed, there: bool, reply: &[u8]) -> LoadKind
    ensures { result ≡ kind_told request.now.ask there reply.now }
{
    let Ask::Map(ask) = &request.ask else {
        return LoadKind::Refused;
    };
    if !is_met(reply) {
        return LoadKind::Refused;
    }
    kind_met(ask.lifetime == 0, there)
}

/// The greater of two moments.
fn later(m: Moment, other: Moment) -> Moment
    ensures { result ≡ max m other }
{
    if m.get() < other.get() { other } else { m }
}

impl<D: LeaseDisk + Drop> HouseLines<D> {
    ghost use Rattle.std.specs.Prelude.{◌<◌, ◌≤◌, length};
    ghost use Rattle.lease_house.specs.SoloHouses.{plain_house};
    ghost use Rattle.house_lines.specs.LoadFindings.{is_there};
    ghost use Rattle.house_lines.specs.Rests.{IsAtRest};

    /// Whether a lease covers the endpoint of a MAP request that comes at `now`. What is done to it
    /// tells how the request counts, so that nothing is looked up after it.
    fn is_there(&self, request: &Routed, now: Moment) -> bool
        requires place { request.now.place < length self.now.config.externals }
        requires rests { IsAtRest D.tells D.seen D.may_leave self.now }
        ensures { result
            ≡ is_there (plain_house self.now) request.now.place request.now.ask now }
    {
        let Ask::Map(ask) = &request.ask else {
            return false;
        };
        let m = later(now, self.house().last(request.place));
        self.house().covered(request.place, &ask.endpoint, m)
    }

    /// How many external addresses there are, at most 16.
    fn places(&self) -> u32
        requires rests { IsAtRest D.tells D.seen D.may_leave self.now }
        ensures count { result ≡ length (plain_house self.now).shards }
        ensures few { result ≤ 16 }
    {
        self.house().config().externals.items().len() as u32
    }
}

impl<D: LeaseDisk + Drop> LoadAnswerer for HouseLines<D> {
    ghost use Rattle.lease_house.specs.HouseImages.{HouseLeavesOnly};
    ghost use Rattle.lease_house.specs.SoloHouses.{plain_house};
    ghost use Rattle.house_lines.specs.DiskFaults.{disk_faults};
    ghost use Rattle.house_lines.specs.HouseWays.{house_stays, house_ways};
    ghost use Rattle.house_lines.specs.LoadEffects.{load_effects};
    ghost use Rattle.house_lines.specs.Rests.{IsAtRest};

    type House = SeenHouse;

    ghost effects = { load_effects };

    ghost house = { plain_house };

    ghost rests = { IsAtRest D.tells D.seen D.may_leave };

    ghost way = { HouseLeavesOnly D.tells D.moment D.left_since D.may_leave };

    ghost faults = { disk_faults D.faults };

    ghost ways = { house_ways D.tells D.moment D.left_since D.may_leave D.counts_now D.only_now };

    ghost stays = { house_stays D.tells D.seen D.moment D.left_since D.may_leave };

    fn serve(
        &mut self,
        alloc: Global,
        request: &Datagram,
        now: Moment,
    ) -> Result<LoadReply, AnswerFault> {
        let Some(read) = read_datagram(alloc, self.house().config(), request)? else {
            return Ok(LoadReply {
                kind: LoadKind::Refused,
                octets: Octets::of(Vec::new(alloc)),
            });
        };
        let there = self.is_there(&read, now);
        let octets = self.reply_read(alloc, request, &read, now)?;
        Ok(LoadReply {
            kind: kind_of(&read, there, octets.items()),
            octets,
        })
    }

    fn leases(&self, m: Moment) -> u32 {
        let mut count = 0;
        for place in 0..self.places() {
            count += self.house().leases(place, m);
        }
        count
    }

    fn owned(&self, alloc: Global, m: Moment) -> Result<u32, Memory> {
        let mut count: u32 = 0;
        for place in 0..self.places() {
            count += self.house().owners(alloc, place, m)?.len() as u32;
        }
        Ok(count)
    }
}
