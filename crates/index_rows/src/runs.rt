//! Calls of both bodies of free runs, with answers that are worked out by hand.

ghost use Rattle.std.specs.Prelude.{◌≡◌, ◌≤◌, ◌<◌};

use Call::{FirstRun, Give, LongestRun, RunAt, Take};
use pcp_base::Memory;
use port_runs::Runs;
use port_runs::plain::PlainRuns;
use std::alloc::Global;
use std::marker::Brand;
use std::sync::ledger::{Blank, Ledger};
use step_count::Steps;

/// A call and the answer that is wanted.
#[derive(Clone, Copy)]
enum Call {
    Take(u16, u32, bool),
    Give(u16, u32),
    RunAt(u16, u32, u32),
    FirstRun(u32, Option<u8>, Option<u16>),
    LongestRun(Option<u8>, u32),
}

// Of the ports 10 to 14.
static FIVE: [Call; 47] = [
    FirstRun(1, None, Some(10)),
    FirstRun(5, None, Some(10)),
    FirstRun(6, None, None),
    FirstRun(1, Some(1), Some(11)),
    FirstRun(4, Some(1), Some(11)),
    FirstRun(5, Some(1), None),
    FirstRun(3, Some(0), Some(10)),
    FirstRun(1, Some(2), None),
    LongestRun(None, 5),
    LongestRun(Some(0), 5),
    LongestRun(Some(1), 4),
    LongestRun(Some(2), 0),
    RunAt(10, 9, 5),
    RunAt(12, 2, 2),
    RunAt(14, 5, 1),
    RunAt(15, 1, 0),
    RunAt(9, 1, 0),
    Take(12, 1, true),
    FirstRun(2, None, Some(10)),
    FirstRun(3, None, None),
    LongestRun(Some(0), 2),
    LongestRun(Some(1), 2),
    FirstRun(2, Some(1), Some(13)),
    FirstRun(1, Some(1), Some(11)),
    RunAt(10, 5, 2),
    RunAt(12, 1, 0),
    Take(11, 2, false),
    RunAt(11, 1, 1),
    Take(10, 2, true),
    FirstRun(1, None, Some(13)),
    FirstRun(1, Some(0), Some(14)),
    FirstRun(2, Some(0), None),
    Take(13, 2, true),
    FirstRun(1, None, None),
    LongestRun(None, 0),
    Give(11, 3),
    FirstRun(3, None, Some(11)),
    FirstRun(3, Some(0), None),
    FirstRun(2, Some(0), Some(12)),
    RunAt(11, 9, 3),
    Take(10, 1, false),
    Give(10, 5),
    FirstRun(5, None, Some(10)),
    Take(10, 5, true),
    FirstRun(1, None, None),
    Give(14, 1),
    FirstRun(1, None, Some(14)),
];

// Of the port 65535 alone.
static LAST: [Call; 9] = [
    FirstRun(1, None, Some(65535)),
    FirstRun(1, Some(0), None),
    FirstRun(2, None, None),
    RunAt(65535, 2, 1),
    Take(65535, 1, true),
    FirstRun(1, Some(1), None),
    Take(65535, 1, false),
    Give(65535, 1),
    FirstRun(1, Some(1), Some(65535)),
];

// Of the port 1 alone.
static FIRST: [Call; 4] = [
    FirstRun(1, None, Some(1)),
    FirstRun(1, Some(0), None),
    Take(1, 1, true),
    FirstRun(1, None, None),
];

// Of the ports 50 to 149, which stand in three words of 64.
static THREE_WORDS: [Call; 39] = [
    FirstRun(100, None, Some(50)),
    FirstRun(101, None, None),
    LongestRun(Some(1), 99),
    Take(64, 64, true),
    FirstRun(15, None, Some(128)),
    LongestRun(None, 22),
    RunAt(50, 99, 14),
    RunAt(63, 9, 1),
    RunAt(64, 1, 0),
    RunAt(127, 5, 0),
    RunAt(128, 70, 22),
    Give(96, 1),
    Take(50, 14, true),
    FirstRun(1, None, Some(96)),
    FirstRun(1, Some(1), Some(129)),
    FirstRun(2, None, Some(128)),
    Give(60, 10),
    FirstRun(10, None, Some(60)),
    FirstRun(9, Some(1), Some(61)),
    RunAt(60, 50, 10),
    RunAt(62, 8, 8),
    RunAt(63, 9, 7),
    Take(63, 2, true),
    FirstRun(4, None, Some(65)),
    FirstRun(3, None, Some(60)),
    FirstRun(3, Some(1), Some(65)),
    FirstRun(5, Some(0), Some(128)),
    LongestRun(Some(1), 21),
    Give(120, 8),
    FirstRun(30, None, Some(120)),
    FirstRun(30, Some(1), None),
    FirstRun(29, Some(1), Some(121)),
    LongestRun(None, 30),
    RunAt(125, 99, 25),
    Take(149, 1, true),
    LongestRun(Some(0), 29),
    LongestRun(Some(1), 28),
    Take(69, 2, false),
    RunAt(69, 9, 1),
];

// Of all ports.
static ALL: [Call; 19] = [
    FirstRun(65535, None, Some(1)),
    LongestRun(None, 65535),
    LongestRun(Some(0), 65534),
    FirstRun(65535, Some(0), None),
    FirstRun(65534, Some(0), Some(2)),
    FirstRun(65536, None, None),
    RunAt(1, 70000, 65535),
    Take(1, 65535, true),
    FirstRun(1, None, None),
    Give(1, 65535),
    FirstRun(65535, Some(1), Some(1)),
    Take(32768, 1, true),
    FirstRun(32767, None, Some(1)),
    FirstRun(32767, Some(0), None),
    FirstRun(32766, Some(0), Some(2)),
    FirstRun(32767, Some(1), Some(1)),
    Take(1, 1, true),
    FirstRun(32767, None, Some(32769)),
    FirstRun(32768, None, None),
];

/// Makes a call of both bodies. Whether both give the answer that is wanted. In a wide range the plain
/// body searches for long, and isn't asked.
fn is_answered<L: Ledger>(
    runs: &mut Runs,
    plain: &mut PlainRuns,
    call: &Call,
    steps: &mut Steps<L>,
    low: u16,
    high: u16,
) -> bool
    requires low { runs.old.low ≡ low }
    requires high { runs.old.high ≡ high }
    requires plain_low { plain.old.low ≡ low }
    requires plain_high { plain.old.high ≡ high }
    ensures low { runs.new.low ≡ low }
    ensures high { runs.new.high ≡ high }
    ensures plain_low { plain.new.low ≡ low }
    ensures plain_high { plain.new.high ≡ high }
{
    let is_wide = high.saturating_sub(low) > 100;
    match *call {
        Take(start, n, wanted) => {
            if n == 0 || start < low || start as u64 + n as u64 > high as u64 + 1 {
                return false;
            }
            let taken = runs.take(start, n);
            plain.take(start, n) == wanted && taken == wanted
        }
        Give(start, n) => {
            if n == 0 || start < low || start as u64 + n as u64 > high as u64 + 1 {
                return false;
            }
            runs.give(start, n);
            plain.give(start, n);
            true
        }
        RunAt(start, most, wanted) => {
            runs.run_at(start, most) == wanted && plain.run_at(start, most) == wanted
        }
        FirstRun(0, ..) => false,
        FirstRun(n, parity, wanted) => {
            runs.first_run(n, parity, steps) == wanted
                && (is_wide || plain.first_run(n, parity) == wanted)
        }
        LongestRun(parity, wanted) => {
            runs.longest_run(parity, steps) == wanted
                && (is_wide || plain.longest_run(parity) == wanted)
        }
    }
}

/// Makes a table's calls, one after another. The first that is answered otherwise.
fn first_other<L: Ledger>(
    alloc: Global,
    blank: Blank,
    low: u16,
    high: u16,
    calls: &[Call],
) -> Result<Option<usize>, Memory>
    requires name { blank.name ≡ L.name }
    requires parts { blank.parts ≡ L.parts }
    requires part { 0 < L.parts }
    requires some { 1 ≤ low }
    requires ordered { low ≤ high }
{
    let mut steps = Steps::<L>::begin(blank);
    let mut runs = Runs::new(alloc, low, high)?;
    let mut plain = PlainRuns::new(alloc, low, high)?;
    for (number, call) in calls.iter().enumerate() {
        if !is_answered(&mut runs, &mut plain, call, &mut steps, low, high) {
            return Ok(Some(number));
        }
    }
    Ok(None)
}

#[test]
fn runs_are_found_among_five_ports(rt: HostRuntime) -> Result<(), Memory> {
    let other = first_other::<Brand>(rt.alloc(), Blank::new(1), 10, 14, &FIVE)?;
    assert!(rt; other.is_none(), "{other:?}");
    Ok(())
}

#[test]
fn runs_are_found_of_one_port(rt: HostRuntime) -> Result<(), Memory> {
    let last = first_other::<Brand>(rt.alloc(), Blank::new(1), 65535, 65535, &LAST)?;
    assert!(rt; last.is_none(), "{last:?}");
    let first = first_other::<Brand>(rt.alloc(), Blank::new(1), 1, 1, &FIRST)?;
    assert!(rt; first.is_none(), "{first:?}");
    Ok(())
}

#[test]
fn runs_are_found_across_words(rt: HostRuntime) -> Result<(), Memory> {
    let other = first_other::<Brand>(rt.alloc(), Blank::new(1), 50, 149, &THREE_WORDS)?;
    assert!(rt; other.is_none(), "{other:?}");
    Ok(())
}

#[test]
fn runs_are_found_among_all_ports(rt: HostRuntime) -> Result<(), Memory> {
    let other = first_other::<Brand>(rt.alloc(), Blank::new(1), 1, 65535, &ALL)?;
    assert!(rt; other.is_none(), "{other:?}");
    Ok(())
}
