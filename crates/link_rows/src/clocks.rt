//! What clocks tell, that of the system among them where it fails.
use pcp_base::Moment;
use pcp_io::{Clock, SteadyClock, StepClock, SystemClock};
use program_links::{Gap, gap_of, start_of};
use std::cell::Cell;
use std::io::ErrorKind;
use std::test::Fail;
use std::time::Duration;
use std::{io, time};

// Whether a clock tells this next.
fn tells<C: Clock>(clock: &mut C, times: &[u64]) -> bool {
    for time in times {
        if clock.now() != *time {
            return false;
        }
    }
    true
}

#[test]
fn steps(rt: HostRuntime) -> Result<(), Fail> {
    let alloc = rt.alloc();
    let mut clock = StepClock::new(alloc, vec![in alloc; 5, 7]?)?;
    let mut still = StepClock::new(alloc, Vec::new(alloc))?;
    assert!(rt; tells(&mut clock, &[5, 7, 7]) && tells(&mut still, &[0, 0]));
    Ok(())
}

// A clock of a system that tells these milliseconds, or fails.
#[derive(Drop)]
struct RoughClock {
    told: Cell<Option<u64>>,
}

impl time::Clock for RoughClock {
    fn monotonic(&self) -> io::Result<Duration> {
        Err(io::Error::from(ErrorKind::Unsupported))
    }

    fn since_1970(&self) -> io::Result<Duration> {
        match self.told.get() {
            Some(told) => Ok(Duration::from_millis(told)),
            None => Err(io::Error::from(ErrorKind::Other)),
        }
    }
}

// What the system's clock tells, and what is told then.
static TOLD: [(Option<u64>, u64); 5] = [
    (None, 0),
    (Some(5), 5),
    (None, 5),
    (Some(u64::MAX), (1000 << 40) - 1),
    (Some(3), 3),
];

#[test]
fn clock_of_the_system(rt: HostRuntime) -> Result<(), Fail> {
    let rough = RoughClock {
        told: Cell::new(None),
    };
    let mut clock = SystemClock::of(&rough);
    for (system, time) in &TOLD {
        rough.told.set(*system);
        assert!(rt; clock.now() == *time, "{time}");
    }
    Ok(())
}

// 2020-01-01 and 2100-01-01.
const EARLIEST: u64 = 1_577_836_800_000;

const LATEST: u64 = 4_102_444_800_000;

#[test]
fn this_clock(rt: HostRuntime) {
    let now = SystemClock::of(&rt).now();
    assert!(rt; EARLIEST < now && now < LATEST, "{now}");
}

#[test]
fn a_steady_clock_goes_on_from_its_start(rt: HostRuntime) {
    let mut clock = SteadyClock::starting_at(EARLIEST);
    let mut same = clock.same();
    let first = clock.now();
    assert!(rt; EARLIEST <= first && first < EARLIEST + 60_000, "{first}");
    assert!(rt; first <= same.now());
}

// The time of the system and the last moment of journals in seconds, when a server starts in milliseconds,
// and what people are told.
static STARTS: [(u64, u64, u64, Option<Gap>); 8] = [
    (1_000, 0, 1_000_000, None),
    (1_000, 999, 1_000_000, None),
    (1_000, 1_001, 1_001_000, None),
    (1_000, 87_400, 87_400_000, None),
    (1_000, 87_401, 87_401_000, Some(Gap::Behind(86_401))),
    (315_361_000, 1_000, 315_361_000_000, None),
    (
        315_361_001,
        1_000,
        315_361_001_000,
        Some(Gap::Ahead(315_360_001)),
    ),
    (315_361_001, 0, 315_361_001_000, None),
];

#[test]
fn starts_of_servers(rt: HostRuntime) -> Result<(), Fail> {
    for (system, last, start, gap) in &STARTS {
        let (Some(now), Some(end)) = (Moment::of(*system), Moment::of(*last)) else {
            return Err("moments".into());
        };
        assert!(rt; start_of(*system * 1000, end) == *start, "{system} {last}");
        assert!(rt; gap_of(now, end) == *gap, "{system} {last}");
    }
    Ok(())
}
