//! `speed`: makes many calls of one kind, to be timed. The first word says of which, and a module each
//! what the further words are.
#![tactic(auto)]

mod cores;
mod costs;
mod datagrams;
mod device;
mod judging;
mod lanes;
mod patterns;
mod requests;
mod serving;
mod timing;
mod wishes;

use std::process::ExitCode;

const USAGE: &str = "usage: speed core [times] NAME LEASES ROUNDS ..
       speed datagrams NAME .. COUNT
       speed device PATH RECORDS OCTETS
       speed lanes [times] LOOKUPS RENEWALS
       speed patterns [times] ROUNDS

core       Decisions on a core: NAME is core, chance or judge. After the word
           times the nanoseconds of a decision are told.
datagrams  Requests that are judged and replied to: NAME is plain, options or
           copies.
device     The device calls of records that are appended to a journal.
lanes      Lookups in a lane, alone and beside a thread that publishes renewals.
           After the word times their nanoseconds are told.
patterns   Requests beside much that has ended, falls due or belongs to one lease.
           After the word times their nanoseconds are told, and the ratios of
           these to a plain request and to a renewal.
";

/// Makes the calls that the words ask for. Whether the first word is one of those known.
fn run(rt: &HostRuntime, words: &[String]) -> anyhow::Result<bool> {
    let Some((word, rest)) = words.split_first() else {
        return Ok(false);
    };
    match word.as_str() {
        "core" => cores::run(rt, rest)?,
        "datagrams" => datagrams::run(rt, rest)?,
        "device" => device::run(rt, rest)?,
        "patterns" => patterns::run(rt, rest)?,
        _ => return Ok(false),
    }
    Ok(true)
}

fn main(rt: HostRuntime) -> anyhow::Result<ExitCode> {
    let words: Vec<String> = std::env::args(&rt)?.skip(1).collect(rt.alloc())?;
    if let Some((word, rest)) = words.split_first()
        && word.as_str() == "lanes"
    {
        lanes::run(&rt, rt.alloc(), rest)?;
        return Ok(ExitCode::SUCCESS);
    }
    if run(&rt, &words)? {
        return Ok(ExitCode::SUCCESS);
    }
    eprint!(rt; "{USAGE}")?;
    Ok(ExitCode::from(2))
}
