//! What no clause says: what scripts put out, that runs succeed with ample memory, and that the
//! premises of `play` are met.
ghost use Rattle.std.specs.Prelude.{◌≡◌, ◌++◌, [], Some, IfOk, OnOk, OnErr};
ghost use Rattle.script_player.specs.Logs.{letter_of, told_after};
ghost use Rattle.script_player.specs.Played.{HasRun};
ghost use Rattle.script_player.specs.Ways.{course_of};

use crate::lines::config;
use pcp_base::{Config, Externals, Memory, Octets, OwnerList};
use pcp_io::{Calls, MemorySink, MemorySource};
use pcp_script::{Line, LineResult};
use script_player::{AnswerFault, LineAnswerer, PlayStatus, WholeFault, play, read_whole};
use std::alloc::Global;
use std::test::Fail;

// The shard whose disk fails.
const SHARD: u32 = 3;

// No call has this number.
const NEVER: u64 = u64::MAX;

// Keeps the first letter of each line that it answered. Calls may be named at which a disk fails,
// or at which no memory is found.
#[derive(Drop)]
struct Logger {
    config: Config,
    letters: Vec<u8>,
    disk: Calls,
    starving: Calls,
}

impl LineAnswerer for Logger {
    ghost use Rattle.script_player.specs.Logs.{both_ways, faults_at, leaves_both, log_effects, still_there};
    ghost use Rattle.std.specs.Prelude.{refl, ⊤};

    type House = (Externals, Octets);

    ghost effects = { log_effects };

    ghost house = { λ l. (l.config.externals, l.letters.items) };

    ghost way = { leaves_both (λ l. (l.config.externals, l.letters.items)) };

    ghost rests = { λ _. ⊤ };

    ghost faults = { λ l. faults_at 3 l.disk.faults };

    ghost ways = { both_ways (λ l. (l.config.externals, l.letters.items)) };

    ghost stays = { λ l _. still_there (λ l. (l.config.externals, l.letters.items)) l };

    ghost same_externals = { λ _ _. refl };

    fn config(&self) -> &Config {
        &self.config
    }

    fn answer(&mut self, alloc: Global, line: &Line) -> Result<Option<LineResult>, AnswerFault> {
        if self.disk.begin() {
            let _failed = self.disk.fail();
            return Err(AnswerFault::Disk(SHARD));
        }
        if self.starving.begin() {
            return Err(AnswerFault::Memory);
        }
        let told = told(alloc, self.letters.len(), line);
        push_letter(&mut self.letters, line)?;
        Ok(told)
    }
}

// What a line is told after so many lines.
fn told(alloc: Global, count: usize, line: &Line) -> Option<LineResult>
    ensures { result ≡ told_after count line.now }
{
    match line {
        Line::Skip => None,
        Line::Packet(..) => Some(LineResult::Silent),
        Line::Look { .. } => Some(LineResult::Owner(None)),
        Line::Lose(..) => Some(LineResult::Lost(count.min(u32::MAX as usize) as u32)),
        Line::Owners(..) => Some(LineResult::Owners(OwnerList::of(Vec::new(alloc)))),
    }
}

fn push_letter(letters: &mut Vec<u8>, line: &Line) -> Result<(), Memory>
    ensures ok { OnOk result (letters.new.items ≡ letters.old.items ++ letter_of line.now) }
    ensures err { OnErr result (letters.new.items ≡ letters.old.items) }
{
    let letter = match line {
        Line::Skip => return Ok(()),
        Line::Packet(..) => b'p',
        Line::Look { .. } => b'k',
        Line::Lose(..) => b'l',
        Line::Owners(..) => b'o',
    };
    letters.push(letter)?;
    Ok(())
}

// Which calls fail, by their numbers, and how many octets the sink may hold.
#[derive(Clone, Copy)]
struct Failing {
    read: u64,
    write: u64,
    room: u64,
    disk: u64,
    starving: u64,
}

const NONE: Failing = Failing {
    read: NEVER,
    write: NEVER,
    room: 100_000,
    disk: NEVER,
    starving: NEVER,
};

// A run over, and the objects that it used.
#[derive(Drop)]
struct Run {
    status: PlayStatus,
    input: MemorySource,
    answerer: Logger,
    out: MemorySink,
}

fn answerer_of(alloc: Global, failing: &Failing) -> Result<Logger, Memory> {
    let mut disk = Calls::new(alloc);
    disk.fail_at(failing.disk)?;
    let mut starving = Calls::new(alloc);
    starving.fail_at(failing.starving)?;
    Ok(Logger {
        config: config(alloc)?,
        letters: Vec::new(alloc),
        disk,
        starving,
    })
}

// Plays a script in memory.
fn run_in_memory(
    alloc: Global,
    script: Vec<u8>,
    answerer: Logger,
    failing: &Failing,
) -> Result<Run, Memory>
    ensures { IfOk result (λ run. HasRun
        (course_of ⟦<Logger as LineAnswerer>⟧.effects ⟦<Logger as LineAnswerer>⟧.house
        ⟦<Logger as LineAnswerer>⟧.way answerer run.answerer)
        (record { left = Some script.items; held = Some [] })
        (record { left = Some run.input.left; held = Some run.out.held }) run.status) }
{
    let mut answerer = answerer;
    let mut input = MemorySource::new(alloc, script)?;
    input.fail_at(alloc, failing.read)?;
    let mut out = MemorySink::new(alloc, failing.room)?;
    out.fail_at(alloc, failing.write)?;
    let status = play(alloc, &mut input, &mut answerer, &mut out);
    Ok(Run {
        status,
        input,
        answerer,
        out,
    })
}

// Plays a script with a new answerer.
fn played(alloc: Global, script: &[u8], failing: &Failing) -> Result<Run, Memory> {
    let answerer = answerer_of(alloc, failing)?;
    run_in_memory(alloc, script.to_vec(alloc)?, answerer, failing)
}

// Scripts of which nothing fails: how they are played, what they put out, and which lines were
// answered. More of them stand in rows of whole commands.
static SCRIPTS: [(&str, PlayStatus, &str, &str); 2] = [
    (
        "packet 7 10.0.0.5 9 -\nlook 7 192.0.2.1 6 1 10.0.0.5 0\nowners 7 192.0.2.1\nlose 7 192.0.2.1",
        PlayStatus::Done,
        "silent\nnone\nowners 0\nlost 3\n",
        "pkol",
    ),
    (
        "lose 7 192.0.2.1\nlose 7 192.0.2.1\n\nlost",
        PlayStatus::ScriptRefused(4),
        "lost 0\nlost 1\n",
        "ll",
    ),
];

#[test]
fn scripts(rt: HostRuntime) -> Result<(), Fail> {
    for (script, want, output, letters) in &SCRIPTS {
        let run = played(rt.alloc(), script.as_bytes(), &NONE)?;
        let same = run.status == *want && run.out.held() == output.as_bytes();
        assert!(rt; same, "{script}");
        assert!(rt;
            run.answerer.letters.as_slice() == letters.as_bytes(),
            "{script}"
        );
    }
    Ok(())
}

// Calls that fail while three lines are played of which a read gives all, and what is left then.
static FAULTS: [(Failing, PlayStatus, &str, &str); 9] = [
    (Failing { read: 0, ..NONE }, PlayStatus::ReadFault, "", ""),
    (
        Failing { read: 1, ..NONE },
        PlayStatus::ReadFault,
        "lost 0\nlost 1\nlost 2\n",
        "lll",
    ),
    (
        Failing { write: 0, ..NONE },
        PlayStatus::WriteFault,
        "",
        "l",
    ),
    (
        Failing { write: 1, ..NONE },
        PlayStatus::WriteFault,
        "lost 0\n",
        "ll",
    ),
    (
        Failing { room: 20, ..NONE },
        PlayStatus::WriteFault,
        "lost 0\nlost 1\n",
        "lll",
    ),
    (
        Failing { disk: 0, ..NONE },
        PlayStatus::DiskFault(3),
        "",
        "",
    ),
    (
        Failing { disk: 2, ..NONE },
        PlayStatus::DiskFault(3),
        "lost 0\nlost 1\n",
        "ll",
    ),
    (
        Failing {
            starving: 0,
            ..NONE
        },
        PlayStatus::Memory,
        "",
        "",
    ),
    (
        Failing {
            starving: 1,
            ..NONE
        },
        PlayStatus::Memory,
        "lost 0\n",
        "l",
    ),
];

#[test]
fn faults(rt: HostRuntime) -> Result<(), Fail> {
    let script = "lose 7 192.0.2.1\nlose 7 192.0.2.1\nlose 7 192.0.2.1\n";
    for (failing, want, output, letters) in &FAULTS {
        let run = played(rt.alloc(), script.as_bytes(), failing)?;
        let same = run.status == *want && run.out.held() == output.as_bytes();
        assert!(rt; same, "{want:?}, {output}");
        assert!(rt;
            run.answerer.letters.as_slice() == letters.as_bytes(),
            "{want:?}, {letters}"
        );
    }
    Ok(())
}

// A text so often.
fn repeated(alloc: Global, text: &[u8], times: usize) -> Result<Vec<u8>, Memory> {
    let mut all = Vec::new(alloc);
    for _ in 0..times {
        all.extend_from_slice(text)?;
    }
    Ok(all)
}

// How scripts of one text so often are played where this read fails, and how many lines are
// answered. A read gives 4,096 octets; a line to lose leases has 17.
#[test]
fn pieces(rt: HostRuntime) -> Result<(), Fail> {
    let alloc = rt.alloc();
    for (text, times, read, want, count) in [
        ("#", 8_193, 3, PlayStatus::ScriptRefused(1), 0),
        ("#", 8_192, 2, PlayStatus::ReadFault, 0),
        ("lose 7 192.0.2.1\n", 500, 1, PlayStatus::ReadFault, 240),
    ] {
        let script = repeated(alloc, text.as_bytes(), times)?;
        let run = played(alloc, &script, &Failing { read, ..NONE })?;
        assert!(rt; run.status == want, "{text}, {times}, {read}");
        assert!(rt;
            run.answerer.letters.len() == count,
            "{text}, {times}, {read}"
        );
    }
    Ok(())
}

// How many octets of a source are read whole where so many may be and this read fails.
fn whole(
    alloc: Global,
    octets: usize,
    most: usize,
    read: u64,
) -> Result<Result<usize, WholeFault>, Memory> {
    let mut input = MemorySource::new(alloc, repeated(alloc, b"x", octets)?)?;
    input.fail_at(alloc, read)?;
    Ok(match read_whole(alloc, &mut input, most) {
        Ok(text) => Ok(text.len()),
        Err(fault) => Err(fault),
    })
}

#[test]
fn wholes(rt: HostRuntime) -> Result<(), Fail> {
    for (octets, most, read, want) in [
        (0, 0, NEVER, Ok(0)),
        (10, 10, NEVER, Ok(10)),
        (11, 10, NEVER, Err(WholeFault::TooLong)),
        (5_000, 5_000, NEVER, Ok(5_000)),
        (5_001, 5_000, NEVER, Err(WholeFault::TooLong)),
        (5_000, 5_000, 2, Err(WholeFault::Read)),
        (5_001, 5_000, 2, Err(WholeFault::TooLong)),
        (5_000, 5_000, 0, Err(WholeFault::Read)),
    ] {
        let seen = whole(rt.alloc(), octets, most, read)?;
        assert!(rt; seen == want, "{octets}, {most}, {read}");
    }
    Ok(())
}
