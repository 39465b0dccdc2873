//! A house on one thread answers the lines of a script.
ghost use Rattle.std.specs.Prelude.{◌≡◌};
ghost use Rattle.house_lines.specs.HouseEffects.{told_reply};

use crate::faults::fault_told;
use crate::seen::SeenHouse;
use lease_disk::{DiskPair, LeaseDisk};
use lease_house::{Routed, SoloHouse};
use pcp_base::{Config, Datagram, Memory, Moment, Octets, OwnerList};
use pcp_script::{Line, LineResult};
use script_player::{AnswerFault, LineAnswerer};
use std::alloc::Global;
use std::marker::Model;

/// A house that answers the lines of a script, over journals. Contracts see it as the house.
#[derive(Drop)]
pub struct HouseLines<D: LeaseDisk> {
    house: SoloHouse<D>,
}

impl<D: LeaseDisk> Model for HouseLines<D> {
    ghost use Rattle.lease_house.specs.SoloHouses.{HouseView};

    ghost Value = { HouseView D };

    ghost view = { λ lines. lines.house };
}

// What a datagram is told, by its reply.
fn told_reply(from: &Datagram, reply: Option<Octets>) -> LineResult
    ensures { result ≡ told_reply from.now reply }
{
    match reply {
        Some(octets) => LineResult::Reply(Datagram {
            peer: from.peer,
            port: from.port,
            door: from.door,
            octets,
        }),
        None => LineResult::Silent,
    }
}

impl<D: LeaseDisk + Drop> HouseLines<D> {
    ghost use Rattle.std.specs.Prelude.{ℕ, ◌<◌, ◌≤◌, [], ◌∷◌, ◌++◌, length, map, Err, Some, IfOk, OnOk};
    ghost use Rattle.script_player.specs.Ways.{HasFault};
    ghost use Rattle.script_player.specs.declared.answerers.AnswerFault.TheVariants.{Disk};
    ghost use Rattle.lease_histories.specs.PlainHouses.{lose_after, lost_count, owners_in, packet_after, packet_reply};
    ghost use Rattle.lease_house.specs.HouseImages.{HouseLeavesOnly};
    ghost use Rattle.lease_house.specs.Routings.{MayBeAsked, routed_by};
    ghost use Rattle.lease_house.specs.SoloHouses.{plain_house};
    ghost use Rattle.house_lines.specs.DiskFaults.{disk_faults};
    ghost use Rattle.house_lines.specs.Rests.{IsAtRest};

    /// Answers lines by this house.
    pub fn of(house: SoloHouse<D>) -> HouseLines<D>
        ensures { result ≡ house }
    {
        HouseLines { house }
    }

    /// The house.
    pub(crate) fn house(&self) -> &SoloHouse<D>
        ensures { result.now ≡ self.now }
    {
        &self.house
    }

    /// All pairs of disks, in the order in which the house got them.
    pub fn end(self) -> Vec<DiskPair<D>>
        ensures { result.items ≡ map (λ b. b.journal.pair) self.books ++ self.spare }
    {
        self.house.end()
    }

    /// The reply to a datagram; none where it is silent.
    pub(crate) fn reply_to(
        &mut self,
        alloc: Global,
        from: &Datagram,
        now: Moment,
    ) -> Result<Option<Octets>, AnswerFault>
        requires rests { IsAtRest D.tells D.seen D.may_leave self.old }
        ensures told { IfOk result
            (λ reply. reply ≡ packet_reply (plain_house self.old) now from.now) }
        ensures house { OnOk result
            (plain_house self.new ≡ packet_after (plain_house self.old) now from.now) }
        ensures rests { OnOk result (IsAtRest D.tells D.seen D.may_leave self.new) }
        ensures way { HouseLeavesOnly D.tells D.moment D.left_since D.may_leave self.old self.new
            (plain_house self.old ∷ packet_after (plain_house self.old) now from.now ∷ []) }
        ensures cause { (shard : ℕ) → result ≡ Err (Disk shard) → HasFault
            (disk_faults D.faults self.old shard) (disk_faults D.faults self.new shard) }
        ensures later { (shard disk : ℕ) →
            disk_faults D.faults self.old shard disk ≤ disk_faults D.faults self.new shard disk }
    {
        let reply = match self.house.serve(alloc, from, now) {
            Ok(reply) => reply,
            Err(fault) => return Err(fault_told(fault)),
        };
        Ok(reply)
    }

    /// The reply to what was read of a datagram.
    pub(crate) fn reply_read(
        &mut self,
        alloc: Global,
        from: &Datagram,
        request: &Routed,
        now: Moment,
    ) -> Result<Octets, AnswerFault>
        requires rests { IsAtRest D.tells D.seen D.may_leave self.old }
        requires read { routed_by self.old.config from.now ≡ Some request.now }
        requires may_be_asked { MayBeAsked self.old.config from.now
            request.now.place request.now.ask }
        ensures told { IfOk result
            (λ reply. Some reply ≡ packet_reply (plain_house self.old) now from.now) }
        ensures house { OnOk result
            (plain_house self.new ≡ packet_after (plain_house self.old) now from.now) }
        ensures rests { OnOk result (IsAtRest D.tells D.seen D.may_leave self.new) }
        ensures config { OnOk result (self.new.config ≡ self.old.config) }
        ensures way { HouseLeavesOnly D.tells D.moment D.left_since D.may_leave self.old self.new
            (plain_house self.old ∷ packet_after (plain_house self.old) now from.now ∷ []) }
        ensures cause { (shard : ℕ) → result ≡ Err (Disk shard) → HasFault
            (disk_faults D.faults self.old shard) (disk_faults D.faults self.new shard) }
        ensures later { (shard disk : ℕ) →
            disk_faults D.faults self.old shard disk ≤ disk_faults D.faults self.new shard disk }
    {
        let reply = match self.house.serve_read(alloc, from, request, now) {
            Ok(reply) => reply,
            Err(fault) => return Err(fault_told(fault)),
        };
        Ok(reply)
    }

    /// Loses all leases of an external address.
    fn lose(&mut self, alloc: Global, shard: u32, now: Moment) -> Result<u32, AnswerFault>
        requires shard { shard < length self.old.config.externals }
        requires rests { IsAtRest D.tells D.seen D.may_leave self.old }
        ensures told { IfOk result (λ count. count ≡ lost_count (plain_house self.old) shard now) }
        ensures house { OnOk result
            (plain_house self.new ≡ lose_after (plain_house self.old) shard now) }
        ensures rests { OnOk result (IsAtRest D.tells D.seen D.may_leave self.new) }
        ensures way { HouseLeavesOnly D.tells D.moment D.left_since D.may_leave self.old self.new
            (plain_house self.old ∷ lose_after (plain_house self.old) shard now ∷ []) }
        ensures cause { (shard : ℕ) → result ≡ Err (Disk shard) → HasFault
            (disk_faults D.faults self.old shard) (disk_faults D.faults self.new shard) }
        ensures later { (shard disk : ℕ) →
            disk_faults D.faults self.old shard disk ≤ disk_faults D.faults self.new shard disk }
    {
        let count = match self.house.lose(alloc, shard, now) {
            Ok(count) => count,
            Err(fault) => return Err(fault_told(fault)),
        };
        Ok(count)
    }

    /// The ports that live leases own.
    fn owners(&self, alloc: Global, shard: u32, m: Moment) -> Result<OwnerList, Memory>
        requires shard { shard < length self.now.config.externals }
        requires rests { IsAtRest D.tells D.seen D.may_leave self.now }
        ensures { IfOk result (λ owners. owners ≡ owners_in (plain_house self.now) shard m) }
    {
        let owners = self.house.owners(alloc, shard, m)?;
        Ok(OwnerList::of(owners))
    }
}

impl<D: LeaseDisk + Drop> LineAnswerer for HouseLines<D> {
    ghost use Rattle.lease_house.specs.HouseImages.{HouseLeavesOnly};
    ghost use Rattle.lease_house.specs.SoloHouses.{plain_house};
    ghost use Rattle.house_lines.specs.DiskFaults.{disk_faults};
    ghost use Rattle.house_lines.specs.HouseEffects.{house_effects};
    ghost use Rattle.house_lines.specs.HouseWays.{externals_stay, house_stays, house_ways};
    ghost use Rattle.house_lines.specs.Rests.{IsAtRest};

    type House = SeenHouse;

    ghost effects = { house_effects };

    ghost house = { plain_house };

    ghost way = { HouseLeavesOnly D.tells D.moment D.left_since D.may_leave };

    ghost rests = { IsAtRest D.tells D.seen D.may_leave };

    ghost faults = { disk_faults D.faults };

    ghost ways = { house_ways D.tells D.moment D.left_since D.may_leave D.counts_now D.only_now };

    ghost stays = { house_stays D.tells D.seen D.moment D.left_since D.may_leave };

    ghost same_externals = { externals_stay };

    fn config(&self) -> &Config {
        self.house.config()
    }

    fn answer(&mut self, alloc: Global, line: &Line) -> Result<Option<LineResult>, AnswerFault> {
        match line {
            Line::Skip => Ok(None),
            Line::Packet(now, from) => {
                let reply = self.reply_to(alloc, from, *now)?;
                Ok(Some(told_reply(from, reply)))
            }
            Line::Look {
                moment,
                shard,
                protocol,
                port,
                remote,
                remote_port,
            } => {
                let owner = self
                    .house
                    .look(*shard, *protocol, *port, remote, *remote_port, *moment);
                Ok(Some(LineResult::Owner(owner)))
            }
            Line::Lose(now, shard) => {
                let count = self.lose(alloc, *shard, *now)?;
                Ok(Some(LineResult::Lost(count)))
            }
            Line::Owners(moment, shard) => {
                let owners = self.owners(alloc, *shard, *moment)?;
                Ok(Some(LineResult::Owners(owners)))
            }
        }
    }
}
