//! A house of many threads, as its workers see it.
ghost use Rattle.std.specs.Prelude.{◌≡◌, ◌≤◌, [], length, IfOk, IfErr, OnOk, OnErr};

use job_workers::JobHouse;
use lease_disk::LeaseDisk;
use lease_house::HouseFault;
use pcp_base::{Datagram, Memory, Moment};
use shared_house::{House, HousePass, Served, give_up};
use status_board::ShardNumbers;
use std::alloc::Global;
use std::marker::Model;
use std::sync::Wait;

/// A house whose workers do the jobs of its external addresses. To contracts it is the house. It isn't
/// `Drop`, as that isn't.
pub struct ServingHouse<D: LeaseDisk> {
    pub(crate) house: House<D>,
}

impl<D: LeaseDisk> Model for ServingHouse<D> {
    ghost use Rattle.shared_house.specs.HouseCalls.{HouseView};

    ghost Value = { HouseView D };

    ghost view = { λ s. s.house };
}

impl<D: LeaseDisk> ServingHouse<D> {
    /// The house, for workers.
    pub fn of(house: House<D>) -> ServingHouse<D>
        ensures { result ≡ house }
    {
        ServingHouse { house }
    }

    /// The house again.
    pub fn into_house(self) -> House<D>
        ensures { result ≡ self }
    {
        let ServingHouse { house } = self;
        house
    }
}

impl<D: LeaseDisk + Drop> JobHouse<HousePass<D>> for ServingHouse<D> {
    ghost use Rattle.house_workers.specs.HouseCallsOf.{calls_of};

    ghost calls = { λ h. calls_of D.tells D.seen D.moment D.left_since D.may_leave D.faults h };

    fn serve<R: Wait>(
        &self,
        rt: &R,
        alloc: Global,
        pass: &mut HousePass<D>,
        batch: &[Datagram],
        now: Moment,
    ) -> Result<Vec<Datagram>, HouseFault> {
        let served = match self.house.serve(rt, alloc, pass, batch, now) {
            Ok(served) => served,
            Err(fault) => return Err(fault),
        };
        let Served {
            replies,
            told: _told,
        } = served;
        Ok(replies)
    }

    fn lose<R: Wait>(
        &self,
        rt: &R,
        alloc: Global,
        pass: &mut HousePass<D>,
        now: Moment,
    ) -> Result<u32, HouseFault> {
        let lost = match self.house.lose(rt, alloc, pass, now) {
            Ok(lost) => lost,
            Err(fault) => return Err(fault),
        };
        let (count, _told) = lost;
        Ok(count)
    }

    fn count<R: Wait>(
        &self,
        rt: &R,
        alloc: Global,
        pass: &mut HousePass<D>,
        now: Moment,
    ) -> Result<Option<ShardNumbers>, HouseFault> {
        let counted = match self.house.count(rt, alloc, pass, now) {
            Ok(counted) => counted,
            Err(fault) => return Err(fault),
        };
        let (numbers, _told) = counted;
        Ok(numbers)
    }

    fn told(&self, pass: &mut HousePass<D>) -> Moment {
        self.house.told(pass)
    }

    fn split(&self, alloc: Global, pass: &mut HousePass<D>) -> Result<HousePass<D>, Memory> {
        self.house.split(alloc, pass)
    }

    fn give_up(&self, pass: HousePass<D>) {
        give_up(pass);
    }
}
