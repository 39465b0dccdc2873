//! `pcp`: answers Port Control Protocol requests (RFC 6887).
#![tactic(auto)]

ghost use Rattle.std.specs.Prelude.{◌≡◌, ◌≢◌};
ghost use Rattle.std.specs.declared.io.ErrorKind.TheVariants.{OutOfMemory};
ghost use Rattle.server_commands.specs.declared.statuses.Status.TheVariants as Statuses;

mod keys;
mod meetings;
mod nonces;
mod orders;
mod relays;
mod serve;
mod tools;
mod watches;

use crate::orders::{may_order, order_over};
use crate::relays::{may_relay, relay_over};
use crate::serve::{Served, externals_in, serve_over};
use crate::tools::{ask_by, may_ask, means_of, tell_now};
use crate::watches::watch;
use client_commands::is_help;
use client_words::help_of;
use config_source::config_of;
use journal_dump::Looked;
use lease_disk::{DiskPair, FileDisk};
use pcp_base::{MOST_EXTERNALS, Memory};
use pcp_io::{FileSource, Source, StdSink};
use pcp_server::{Status, run_once};
use program_texts::{
    DiskCause, KeptSource, Places, journals_in, look_at, may_open, places_of, tell_tool_words,
    told_of,
};
use serve_commands::{ServePlan, serve_of};
use status_board::Board;
use std::alloc::Global;
use std::env;
use std::env::VarError;
use std::fs::File;
use std::io::ErrorKind;
use std::os::fd::{AsRawFd, IntoRawFd};
use std::process::ExitCode;
use std::sync::Wait;
use std::thread::Threads;
use tool_commands::ToolStatus;
use watch_files::may_watch;

const USAGE: &str = "usage: pcp serve CONFIG JOURNALS PORT LANEPORT
       pcp play CONFIG SCRIPT JOURNALS START
       pcp dump CONFIG JOURNALS
       pcp load CONFIG JOURNALS START NUMBER COUNT
       pcp watch CONFIG JOURNALS --once
       pcp stop JOURNALS
       pcp lose JOURNALS ADDRESS
       pcp status JOURNALS
       pcp keep OPTIONS..
       pcp map OPTIONS..
       pcp unmap OPTIONS..
       pcp peer OPTIONS..
       pcp announce OPTIONS..
       pcp proxy OPTIONS..
       pcp cascade OPTIONS..
       pcp keep --help (or map, unmap, peer, announce, proxy, cascade)
       pcp --help (or -h)
       pcp --version

CONFIG is a file with the configuration, in TOML. JOURNALS is a folder that is
there: it keeps the leases of each external address over all stops, and files
are made in it as they are needed. START is a moment in whole seconds below 2^40.

serve Answers the Port Control Protocol requests that come to UDP port PORT,
      usually 5351, of the addresses that CONFIG names as `listen`, or else of all
      addresses of this host, until `pcp stop` ends it. Orders come by the socket
      `orders` in JOURNALS, which is its user's alone, and, unless CONFIG has
      orders = \"folder\", by the octet ff and 'stop' or 'lose ADDRESS', sent from
      127.0.0.1 to PORT of 127.0.0.1; nothing is ordered by other addresses.
      Whose an external port is is asked at port LANEPORT of 127.0.0.1, and at
      those above it for the further external addresses. At its end it writes a
      line for each of these.

          mkdir journals
          pcp serve examples/first.toml journals 5351 5400

play  Opens the journals at START and answers the Port Control Protocol requests
      of the file SCRIPT. For each line its result is written to standard output.

          mkdir journals
          pcp play examples/first.toml examples/first.script journals 1000

dump  Writes as JSON what the journals hold, and changes nothing in them.

          pcp dump examples/first.toml journals

watch Writes the live leases of the server that runs over JOURNALS, a line of JSON
      each, and changes nothing. It waits for nobody, and nobody waits for it.

          pcp watch examples/first.toml journals --once

load  Opens the journals at START, serves COUNT requests (at most 1000000) that
      NUMBER (below 2^64) makes, a hundred a second, and writes a summary.

          pcp load examples/first.toml journals 1000 7 20000

stop, lose, status
      Order something of the server that runs over JOURNALS: that it ends, which is
      waited for; that it loses all leases of the external address ADDRESS, which
      tells their clients by the epoch; or that it says how it is, in JSON.

          pcp status journals

keep  Keeps a port of this host open at the router, and prints a line at each
      change, until a signal ends it. With a file for the nonce it has the port again
      when it is started anew.

          pcp keep --protocol tcp --port 443 --nonce-file port-443.nonce

map, unmap, peer, announce
      Ask a server once for a mapping, to delete one, for one towards one remote
      peer, or for its epoch, and print its answer. With a file for the nonce the
      same words again renew a mapping, and unmap deletes it.

          pcp map --protocol udp --port 5000 --nonce-file port-5000.nonce
          pcp unmap --protocol udp --port 5000 --nonce-file port-5000.nonce

      Without --server they ask the router of this host's default route, and
      without --own from the address by which the system reaches it.

proxy Relays what clients ask at port 5351 of its inner addresses to a server, and
      the replies to them, until it is stopped by the octet ff and 'stop', sent
      from 127.0.0.1 to port 5350 of 127.0.0.1. The file has 64 hexadecimal digits
      that no client knows. --third-party PREFIX says who may ask for others.

          pcp proxy --server 192.0.2.9 --own 192.0.2.2 --inner 10.0.0.2 --key-file key

cascade
      Relays as proxy does, for clients behind a translator of this host: it asks
      the server for a port of its own address, from --low to --high, in place of
      the client's, and tells the client what the server gave for that.

          pcp cascade --server 192.0.2.9 --own 192.0.2.2 --inner 10.0.0.2 \\
              --low 20000 --high 29999 --key-file key

Exit status, and the line on standard error:

    0  nothing
    2  pcp: words refused
    3  pcp: configuration refused: too long (or: not toml, not a configuration)
    4  pcp: script refused at line N
    5  pcp: read failed (of serve, proxy and cascade also: a port is taken; of
       stop, lose and status: the server went away)
    6  pcp: write failed
    7  pcp: disk of shard N failed (N counts the external addresses from 0)
    8  pcp: out of memory (of serve also: too few threads)
   10  pcp: no random word
   11  pcp: no answer (of stop, lose and status: no server there, or not for you)
   12  pcp: refused with code N (of RFC 6887, section 7.4), or an order: pcp: refused
   13  pcp: too many turns
   14  pcp: stopped

Where the environment has PCP_EXPLAIN, more lines tell why words, a
configuration or a script are refused, what can't be read, why a disk failed,
and which journals serve, play and load found blank or damaged.
";

const VERSION: &str = "pcp 0.1.0\n";

/// The commands whose words the usage tells whole: they have no options.
const IN_USAGE: [&str; 8] = [
    "serve", "play", "dump", "load", "watch", "stop", "lose", "status",
];

/// The status of a command, of the server's or of a tool's.
#[derive(Clone, Copy)]
enum EndStatus {
    Server(Status),
    Tool(ToolStatus),
}

/// How a command ended.
#[derive(Drop)]
struct Ended {
    status: EndStatus,
    /// what people are told beside it, where they ask
    told: Vec<String>,
}

impl Ended {
    /// A command of the server ended so, and there is no more to tell.
    fn with(rt: &HostRuntime, status: Status) -> Ended {
        Ended {
            status: EndStatus::Server(status),
            told: Vec::new(rt.alloc()),
        }
    }

    /// A command of a tool ended so, for these causes.
    fn with_causes(
        rt: &HostRuntime,
        status: ToolStatus,
        causes: Vec<String>,
        explains: bool,
    ) -> Ended {
        Ended {
            status: EndStatus::Tool(status),
            told: if explains {
                causes
            } else {
                Vec::new(rt.alloc())
            },
        }
    }

    /// A command of a tool ended so, of these words.
    fn with_tool(rt: &HostRuntime, words: &[String], status: ToolStatus, explains: bool) -> Ended {
        let mut told = Vec::new(rt.alloc());
        if explains && status == ToolStatus::WordsRefused {
            // Without memory for it nothing is told.
            let _ = tell_tool_words(rt.alloc(), &mut told, words);
        }
        Ended {
            status: EndStatus::Tool(status),
            told,
        }
    }
}

/// Tells how a command ended, in a line on standard error unless all was done; gives the exit status.
fn exit_with(rt: &HostRuntime, status: EndStatus) -> u8 {
    match status {
        EndStatus::Server(Status::Done) | EndStatus::Tool(ToolStatus::Done) => 0,
        EndStatus::Server(status) => {
            let _ = eprintln!(rt; "{status}");
            status.exit()
        }
        EndStatus::Tool(status) => {
            let _ = eprintln!(rt; "{status}");
            status.exit()
        }
    }
}

/// Gives the numbers of the standard streams to a file that takes nothing, where they are free: else a
/// journal gets one of them, and what is printed is written over it.
fn keep_standard(rt: &HostRuntime) {
    for _ in 0..3 {
        let Ok(file) = File::open(rt, "/dev/null") else {
            return;
        };
        if file.as_raw_fd() > 2 {
            return;
        }
        // It stays open until the program has ended.
        let _open = file.into_raw_fd();
    }
}

fn main(rt: HostRuntime) -> ExitCode {
    keep_standard(&rt);
    let ended = match words(&rt) {
        Ok(words) => run(&rt, &rt, &words, explains(&rt)),
        Err(status) => Ended::with(&rt, status),
    };
    let exit = exit_with(&rt, ended.status);
    for line in &ended.told {
        let _ = eprintln!(rt; "pcp: {line}");
    }
    ExitCode::from(exit)
}

/// The words behind the program's name. A word that isn't UTF-8 is part of no command.
fn words(rt: &HostRuntime) -> Result<Vec<String>, Status> {
    let args = match env::args(rt) {
        Ok(args) => args,
        Err(error) => return Err(status_of(error.kind())),
    };
    let mut words = Vec::new(rt.alloc());
    for word in args.skip(1) {
        if words.push(word).is_err() {
            return Err(Status::Memory);
        }
    }
    Ok(words)
}

/// How the program ends where its words can't be had.
fn status_of(kind: ErrorKind) -> Status
    ensures memory { kind ≡ OutOfMemory → result ≡ Statuses.Memory }
    ensures words { kind ≢ OutOfMemory → result ≡ Statuses.WordsRefused }
{
    match kind {
        ErrorKind::OutOfMemory => Status::Memory,
        _ => Status::WordsRefused,
    }
}

/// Whether people are to be told more than a status.
fn explains(rt: &HostRuntime) -> bool {
    match env::var(rt, "PCP_EXPLAIN") {
        Ok(_) | Err(VarError::NotUnicode) => true,
        Err(VarError::NotPresent | VarError::OutOfMemory) => false,
    }
}

/// Whether it is the name of a command whose words the usage tells whole.
fn is_in_usage(name: &str) -> bool {
    IN_USAGE.contains(&name)
}

/// Runs the command that the words are.
fn run<R: Threads + Wait + Sync>(
    threads: &R,
    rt: &HostRuntime,
    words: &[String],
    explains: bool,
) -> Ended {
    match words {
        [word] if is_help(word) => Ended::with(rt, tell(rt, USAGE)),
        [word] if word.as_str() == "--version" => Ended::with(rt, tell(rt, VERSION)),
        [name, word] if is_help(word) && is_in_usage(name) => Ended::with(rt, tell(rt, USAGE)),
        _ if may_order(words) => order(rt, words, explains),
        _ if may_ask(words) => ask(threads, rt, words, explains),
        _ if may_watch(words) => watch(rt, words, explains),
        _ if may_relay(words) => relay(threads, rt, words, explains),
        _ => serve_or_run(threads, rt, words, explains),
    }
}

/// Runs a command of the server.
fn serve_or_run<R: Threads + Wait + Sync>(
    threads: &R,
    rt: &HostRuntime,
    words: &[String],
    explains: bool,
) -> Ended {
    let ended = match serve_of(words) {
        Some(plan) => serve_at(threads, rt, words, plan, explains),
        None => run_at(rt, words, &places_of(words), explains),
    };
    match ended {
        Ok(ended) => ended,
        Err(Memory) => Ended::with(rt, Status::Memory),
    }
}

/// Runs a command of the client, or prints its help.
fn ask<R: Wait>(waits: &R, rt: &HostRuntime, words: &[String], explains: bool) -> Ended {
    match help_of(rt.alloc(), words) {
        Ok(Some(help)) => Ended::with(rt, tell(rt, help.as_str())),
        Ok(None) => match ask_over(waits, rt, words, explains) {
            Ok(ended) => ended,
            Err(Memory) => Ended::with(rt, Status::Memory),
        },
        Err(Memory) => Ended::with(rt, Status::Memory),
    }
}

/// Runs a command of the client.
fn ask_over<R: Wait>(
    waits: &R,
    rt: &HostRuntime,
    words: &[String],
    explains: bool,
) -> Result<Ended, Memory> {
    let means = match means_of(rt, words)? {
        Ok(means) => means,
        Err((status, causes)) => return Ok(Ended::with_causes(rt, status, causes, explains)),
    };
    if !means.is_whole() && !means.causes.is_empty() {
        let refused = ToolStatus::WordsRefused;
        return Ok(Ended::with_causes(rt, refused, means.causes, explains));
    }
    tell_now(rt, &means.causes, explains);
    let status = ask_by(waits, rt, means)?;
    Ok(Ended::with_tool(rt, words, status, explains))
}

/// Orders something of a server that runs.
fn order(rt: &HostRuntime, words: &[String], explains: bool) -> Ended {
    match order_over(rt, words) {
        Ok((status, cause)) => {
            let mut ended = Ended::with_tool(rt, words, status, explains);
            if let Some(cause) = cause
                && explains
            {
                // Without memory for it nothing is told.
                let _ = ended.told.push(cause);
            }
            ended
        }
        Err(Memory) => Ended::with(rt, Status::Memory),
    }
}

/// Runs the relay, or prints its help.
fn relay<R: Wait>(waits: &R, rt: &HostRuntime, words: &[String], explains: bool) -> Ended {
    match relay_words::help_of(rt.alloc(), words) {
        Ok(Some(help)) => Ended::with(rt, tell(rt, help.as_str())),
        Ok(None) => match relay_over(waits, rt, words, explains) {
            Ok(status) => Ended::with_tool(rt, words, status, explains),
            Err(Memory) => Ended::with(rt, Status::Memory),
        },
        Err(Memory) => Ended::with(rt, Status::Memory),
    }
}

/// Prints a text.
fn tell(rt: &HostRuntime, text: &str) -> Status {
    match rt.print(text) {
        Ok(()) => Status::Done,
        Err(_) => Status::WriteFault,
    }
}

/// Serves, and tells how that ended.
fn serve_at<R: Threads + Wait + Sync>(
    threads: &R,
    rt: &HostRuntime,
    words: &[String],
    plan: ServePlan,
    explains: bool,
) -> Result<Ended, Memory> {
    let places = places_of(words);
    let path = String::from_str(rt.alloc(), places.config)?;
    let kept = Some(Vec::new(rt.alloc()));
    let mut config = KeptSource::of(FileSource::new(rt, path), kept);
    let read = config_of(rt.alloc(), &mut config);
    let board = Board::new(rt.alloc(), externals_in(&read))?;
    let mut out = StdSink::new(rt.stdout());
    let served = serve_over(
        threads,
        rt,
        words,
        plan,
        places.journals,
        config.kept(),
        &read,
        &board,
        explains,
        &mut out,
    )?;
    ended_by(rt, words, served, config.kept(), explains)
}

/// What people are told of how serving ended, with this configuration.
fn ended_by(
    rt: &HostRuntime,
    words: &[String],
    served: Served<'_>,
    config: Option<&[u8]>,
    explains: bool,
) -> Result<Ended, Memory> {
    let Served {
        status,
        disks,
        stopped,
        told,
        cause,
    } = served;
    let mut ended = if explains && told.is_empty() {
        explained(rt, words, status, config, &[], &disks)
    } else {
        Ended {
            status: EndStatus::Server(status),
            told,
        }
    };
    drop(disks);
    for stream in stopped {
        // The system closes it when the program has ended.
        let _open = stream.into_raw_fd();
    }
    if let Some(cause) = cause
        && explains
    {
        ended.told.push(cause)?;
    }
    Ok(ended)
}

/// Runs another command of the server over the files at these places.
fn run_at(
    rt: &HostRuntime,
    words: &[String],
    places: &Places<'_>,
    explains: bool,
) -> Result<Ended, Memory> {
    let path = String::from_str(rt.alloc(), places.config)?;
    let mut config = KeptSource::of(FileSource::new(rt, path), kept_if(rt.alloc(), explains));
    if !explains {
        let (status, _disks) = run_over(rt, words, places, &mut config)?;
        return Ok(Ended::with(rt, status));
    }
    let found = find_journals(rt, words, places);
    let (status, disks) = run_over(rt, words, places, &mut config)?;
    Ok(explained(rt, words, status, config.kept(), &found, &disks))
}

/// Where what a configuration gives is to be kept, if people are to be told more than a status.
fn kept_if(alloc: Global, explains: bool) -> Option<Vec<u8>> {
    if explains {
        Some(Vec::new(alloc))
    } else {
        None
    }
}

/// What journals that a command opens were found to be, to be told at its end.
fn find_journals(rt: &HostRuntime, words: &[String], places: &Places<'_>) -> Vec<Option<Looked>> {
    if may_open(words) {
        look_at(rt, places.journals, MOST_EXTERNALS)
    } else {
        Vec::new(rt.alloc())
    }
}

/// Runs a command that serves nobody over the network, whose configuration this source gives.
fn run_over<'a, C: Source>(
    rt: &'a HostRuntime,
    words: &[String],
    places: &Places<'_>,
    config: &mut C,
) -> Result<(Status, Vec<DiskPair<FileDisk<&'a HostRuntime>>>), Memory> {
    let mut out = StdSink::new(rt.stdout());
    let mut script = FileSource::new(rt, String::from_str(rt.alloc(), places.script)?);
    let disks = journals_in(rt, places.journals)?;
    Ok(run_once(rt.alloc(), words, config, &mut script, &mut out, disks))
}

/// A command of the server ended so; what people are told of it beside that, where there is memory for
/// it.
fn explained<D: DiskCause>(
    rt: &HostRuntime,
    words: &[String],
    status: Status,
    config: Option<&[u8]>,
    found: &[Option<Looked>],
    disks: &[DiskPair<D>],
) -> Ended {
    match told_of(rt, words, status, config, found, disks) {
        Ok(told) => Ended {
            status: EndStatus::Server(status),
            told,
        },
        Err(Memory) => Ended::with(rt, status),
    }
}
