//! A load is played: its requests are served one after the other, and a summary is written.
ghost use Rattle.std.specs.Prelude.{◌≡◌, ℕ, ◌-◌, ◌<◌, ◌≤◌, ◌^◌, List, length, Err, IfOk, OnErr, OnOk};
ghost use Rattle.std.specs.Io.KnownBytes.{append_known};
ghost use Rattle.pcp_io.specs.Faults.{HasRisen};
ghost use Rattle.pcp_io.specs.Writes.{WritesPart};
ghost use Rattle.sha2.specs.Hashers.{Holds256};
ghost use Rattle.sha2.specs.Sha256.{sha256};
ghost use Rattle.load_summary.specs.Counts.{AreCountsOf};
ghost use Rattle.load_summary.specs.Summaries.{summary_text};
ghost use Rattle.load_summary.specs.declared.counts.LoadKind.{LoadKind};
ghost use Rattle.script_player.specs.Ways.{HasFault};
ghost use Rattle.script_player.specs.declared.answerers.AnswerFault.TheVariants.{Disk};
ghost use Rattle.server_commands.specs.declared.commands.LoadPlan.{LoadPlan};
ghost use Rattle.load_player.specs.LoadEnds.{EndsLoad, ServesAll, StopsServing, load_course};
ghost use Rattle.load_player.specs.LoadRuns.{load_moment, load_text};
ghost use Rattle.load_player.specs.Serving.{IsServedNext, IsServing};
ghost use Rattle.load_player.specs.declared.player.LoadStatus.TheVariants as Statuses;

use crate::answerers::LoadAnswerer;
use load_summary::{LoadCounts, write_summary};
use pcp_base::{Memory, Moment};
use pcp_io::{Sink, write_all};
use pcp_script::Load;
use script_player::AnswerFault;
use server_commands::LoadPlan;
use sha2::{Digest, Sha256};
use std::alloc::Global;
use std::mem;

/// How many requests come in a second.
const IN_A_SECOND: u32 = 100;

// The last moment.
const LAST: u64 = (1 << 40) - 1;

/// How a load was played.
#[derive(Clone, Copy, Debug, PartialEq, Eq)]
pub enum LoadStatus {
    /// Every request was served, and the summary is written.
    Done,
    /// The sink failed.
    WriteFault,
    /// A disk of this shard failed.
    DiskFault(u32),
    /// No memory was found.
    Memory,
}

/// How far a load has come.
#[derive(Drop)]
pub(crate) struct Progress {
    load: Load,
    counts: LoadCounts,
    digest: Sha256,
}

/// The moment of request `i`.
fn moment_of(start: Moment, i: u32) -> Moment
    ensures { result ≡ load_moment start i }
{
    let seconds = (start.get() + u64::from(i / IN_A_SECOND)).min(LAST);
    match Moment::of(seconds) {
        Some(moment) => moment,
        None => unreachable!(),
    }
}

/// Serves the next request, which comes at this moment. Its octets stand where those of the one before
/// it stood.
fn serve_next<A: LoadAnswerer>(
    alloc: Global,
    progress: &mut Progress,
    octets: &mut Vec<u8>,
    answerer: &mut A,
    now: Moment,
) -> Result<(), AnswerFault>
    requires rests { A.rests answerer.old }
    requires few { (kinds : List LoadKind) × AreCountsOf progress.old.counts kinds
        × (length kinds < 2 ^ 32 - 1) }
    ensures next { (first : A) (plan : LoadPlan) (n : ℕ) →
        IsServing (load_course A.effects A.house A.way first answerer.old) plan n progress.old →
        n < plan.count → now ≡ load_moment plan.start n →
        IsServedNext (load_course A.effects A.house A.way first answerer.new) plan n
        progress.new result }
    ensures rests { OnOk result (A.rests answerer.new) }
    ensures cause { (shard : ℕ) → result ≡ Err (Disk shard) →
        HasFault (A.faults answerer.old shard) (A.faults answerer.new shard) }
    ensures later { (shard disk : ℕ) →
        A.faults answerer.old shard disk ≤ A.faults answerer.new shard disk }
{
    let spare = mem::replace(octets, Vec::new(alloc));
    let request = progress.load.next_in(spare)?;
    let told = answerer.serve(alloc, &request, now)?;
    *octets = request.octets.into_vec();
    progress.digest.update(told.octets.items());
    progress.counts = progress.counts.with(told.kind);
    Ok(())
}

/// Serves all requests of a load.
fn serve_all<A: LoadAnswerer>(
    alloc: Global,
    plan: LoadPlan,
    answerer: &mut A,
) -> Result<Progress, AnswerFault>
    requires rests { A.rests answerer.old }
    ensures served { IfOk result
        (IsServing (load_course A.effects A.house A.way answerer.old answerer.new) plan
        plan.count) }
    ensures rests { OnOk result (A.rests answerer.new) }
    ensures stops { OnErr result
        (StopsServing (load_course A.effects A.house A.way answerer.old answerer.new) plan) }
    ensures cause { (shard : ℕ) → result ≡ Err (Disk shard) →
        HasFault (A.faults answerer.old shard) (A.faults answerer.new shard) }
    ensures later { (shard disk : ℕ) →
        A.faults answerer.old shard disk ≤ A.faults answerer.new shard disk }
{
    let mut progress = Progress {
        load: Load::new(plan.number),
        counts: LoadCounts::none(),
        digest: Sha256::new(),
    };
    let mut octets = Vec::new(alloc);
    for i in 0..plan.count {
        serve_next(
            alloc,
            &mut progress,
            &mut octets,
            answerer,
            moment_of(plan.start, i),
        )?;
    }
    Ok(progress)
}

/// The digest of the replies to all that was served.
fn digest_of(progress: Progress) -> [u8; 32]
    ensures { (replies : List ℕ) → Holds256 progress.digest replies → result ≡ sha256 replies }
{
    progress.digest.finalize()
}

/// The summary of what was served, as text. Leases and ports are counted at this moment.
fn text_of<A: LoadAnswerer>(
    alloc: Global,
    counts: LoadCounts,
    digest: &[u8; 32],
    answerer: &A,
    m: Moment,
) -> Result<Vec<u8>, Memory>
    requires { A.rests answerer.now }
    ensures { (kinds : List LoadKind) (replies : List ℕ) →
        AreCountsOf counts kinds → digest.now ≡ sha256 replies →
        IfOk result (λ text. text.items ≡ summary_text kinds
        (A.effects.leases (A.house answerer.now) m) (A.effects.owned (A.house answerer.now) m)
        replies) }
{
    let leases = answerer.leases(m);
    let owned = answerer.owned(alloc, m)?;
    let mut text = Vec::new(alloc);
    write_summary(alloc, &mut text, counts, leases, owned, digest)?;
    Ok(text)
}

/// Serves the requests of a plan one after the other, a hundred a second from its start on, and then
/// writes their summary whole to `out`. Nothing is written before all are served. No request and no
/// reply is kept.
pub fn play_load<W: Sink, A: LoadAnswerer>(
    alloc: Global,
    plan: LoadPlan,
    answerer: &mut A,
    out: &mut W,
) -> LoadStatus
    requires rests { A.rests answerer.old }

    // The whole summary is written, or where the sink fails a part of it, and else nothing.
    ensures done { result ≡ Statuses.Done → W.held out.new
        ≡ append_known (W.held out.old) (load_text A.effects (A.house answerer.old) plan) }
    ensures part { result ≡ Statuses.WriteFault → WritesPart (W.held out.old) (W.held out.new)
        (load_text A.effects (A.house answerer.old) plan) }
    ensures memory { result ≡ Statuses.Memory → out.new ≡ out.old }
    ensures disk { (shard : ℕ) → result ≡ Statuses.DiskFault shard → out.new ≡ out.old }

    // Which requests were served, and what a crash may leave of them.
    ensures served { EndsLoad
        (load_course A.effects A.house A.way answerer.old answerer.new) plan result }
    ensures rests { result ≡ Statuses.Done → A.rests answerer.new }

    // A fault is told only where a count of faults rose.
    ensures write_fault { result ≡ Statuses.WriteFault →
        HasRisen (W.faults out.old) (W.faults out.new) }
    ensures disk_fault { (shard : ℕ) → result ≡ Statuses.DiskFault shard →
        HasFault (A.faults answerer.old shard) (A.faults answerer.new shard) }
    ensures writes { W.faults out.old ≤ W.faults out.new }
    ensures disks { (shard disk : ℕ) →
        A.faults answerer.old shard disk ≤ A.faults answerer.new shard disk }
{
    let last = moment_of(plan.start, plan.count.saturating_sub(1));
    let progress = match serve_all(alloc, plan, answerer) {
        Ok(progress) => progress,
        Err(AnswerFault::Disk(shard)) => return LoadStatus::DiskFault(shard),
        Err(AnswerFault::Memory) => return LoadStatus::Memory,
    };
    let counts = progress.counts;
    let digest = digest_of(progress);
    let Ok(text) = text_of(alloc, counts, &digest, answerer, last) else {
        return LoadStatus::Memory;
    };
    match write_all(out, &text) {
        Ok(()) => LoadStatus::Done,
        Err(_) => LoadStatus::WriteFault,
    }
}
