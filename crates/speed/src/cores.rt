//! Requests on a core, beside a loop that only judges datagrams. The words are threes: a name, a count
//! of leases, and a count of rounds of five decisions. By `core` the leases come in the order granted,
//! by `chance` they come by chance; `judge` knows no leases. A line tells each three and a checksum of
//! the answers; after a first word `times` also the nanoseconds of processor time that a decision took.

use crate::judging::judged;
use crate::requests::Order;
use crate::serving::{decided, indexed};
use crate::timing::Timed;
use anyhow::{Context, bail};
use std::alloc::Global;
use std::time::CpuClock;

/// The order of the leases that a name stands for, if it is one of a core.
fn order_of(name: &str) -> Option<Order> {
    match name {
        "core" => Some(Order::Granted),
        "chance" => Some(Order::Chance),
        _ => None,
    }
}

/// Makes the rounds that a name stands for.
fn timed<C: CpuClock>(
    clock: &C,
    alloc: Global,
    name: &str,
    leases: u32,
    rounds: u32,
) -> anyhow::Result<Timed> {
    if let Some(order) = order_of(name) {
        return decided(clock, alloc, indexed(alloc, 512)?, order, leases, rounds);
    }
    if name != "judge" {
        bail!("{name:?} is not one of the names");
    }
    judged(clock, alloc, rounds)
}

/// Makes the rounds of a three. What is told of them, without the nanoseconds.
fn run_three(
    rt: &HostRuntime,
    name: &str,
    leases: &str,
    rounds: &str,
) -> anyhow::Result<(Timed, u32)> {
    let leases = leases.parse::<u32>().context("reading the leases")?;
    let rounds = rounds.parse::<u32>().context("reading the rounds")?;
    let timed = timed(rt, rt.alloc(), name, leases, rounds)?;
    print!(rt; "{name} {leases} {rounds} {}", timed.sum)?;
    Ok((timed, rounds))
}

/// Makes the rounds of each three.
pub(crate) fn run(rt: &HostRuntime, words: &[String]) -> anyhow::Result<()> {
    let tells = words.first().is_some_and(|word| word.as_str() == "times");
    let threes = if tells { &words[1..] } else { words };
    for three in threes.chunks(3) {
        let [name, leases, rounds] = three else {
            bail!("a count is missing");
        };
        let (timed, rounds) = run_three(rt, name, leases, rounds)?;
        if tells {
            print!(rt; " {}", timed.each(rounds))?;
        }
        println!(rt; "")?;
    }
    Ok(())
}
