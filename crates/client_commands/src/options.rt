//! The options of each command, as `clap` is told them.
ghost use Rattle.std.specs.Prelude.{◌≡◌, IfOk, codes, true, false};
ghost use Rattle.clap.specs.Words.{app_of, new_app, rule_of, with_rule};
ghost use Rattle.client_commands.specs.Options.{announce_app, flag_rule, map_app, option_rule, peer_app, with_addresses, with_endpoint, with_ports, with_target, with_wanted};

use clap::{Arg, ArgAction, Command};
use std::alloc::{AllocError, Global};

/// What `keep` prints.
const KEEP_LINES: &str = "The lines are:
  mapped ADDRESS PORT LIFETIME EPOCH   The port: at first, another one, or again behind the lines below
  refused CODE SECONDS                 The server refuses
  lost                                 The lease ended
  invalid                              The server lost its leases";

/// A command of this name and no option.
fn named<'a>(alloc: Global, name: &'a str, about: &'a str, example: &'a str) -> Command<'a>
    ensures { app_of result ≡ new_app name.entry.now }
{
    Command::new(alloc, name).about(about).after_help(example)
}

/// The option `--name VALUE`.
fn option<'a>(alloc: Global, needed: bool, name: &'a str, value: &'a str, help: &'a str) -> Arg<'a>
    ensures rule { rule_of result ≡ option_rule needed name.entry.now }
    ensures local { result.global ≡ false }
{
    Arg::new(alloc, name)
        .long(name)
        .value_name(value)
        .help(help)
        .required(needed)
}

/// The flag `--name`.
fn flag<'a>(alloc: Global, name: &'a str, help: &'a str) -> Arg<'a>
    ensures rule { rule_of result ≡ flag_rule name.entry.now }
    ensures local { result.global ≡ false }
{
    Arg::new(alloc, name)
        .long(name)
        .help(help)
        .action(ArgAction::SetTrue)
}

/// The command with one more option, which it needs.
fn with_needed<'a>(
    alloc: Global,
    command: Command<'a>,
    name: &'a str,
    value: &'a str,
    help: &'a str,
) -> Result<Command<'a>, AllocError>
    ensures { IfOk result (λ r.
        app_of r ≡ with_rule (app_of command.entry) (option_rule true name.entry.now)) }
{
    command.arg(option(alloc, true, name, value, help))
}

/// The command with one more option, which may lack.
fn with_option<'a>(
    alloc: Global,
    command: Command<'a>,
    name: &'a str,
    value: &'a str,
    help: &'a str,
) -> Result<Command<'a>, AllocError>
    ensures { IfOk result (λ r.
        app_of r ≡ with_rule (app_of command.entry) (option_rule false name.entry.now)) }
{
    command.arg(option(alloc, false, name, value, help))
}

/// The command with one more flag.
fn with_flag<'a>(
    alloc: Global,
    command: Command<'a>,
    name: &'a str,
    help: &'a str,
) -> Result<Command<'a>, AllocError>
    ensures { IfOk result (λ r.
        app_of r ≡ with_rule (app_of command.entry) (flag_rule name.entry.now)) }
{
    command.arg(flag(alloc, name, help))
}

/// The command with the options that say whom to ask. They may lack by `clap`, whose help then says so,
/// since a program may find the addresses itself; words without them are refused all the same.
fn with_addresses<'a>(alloc: Global, command: Command<'a>) -> Result<Command<'a>, AllocError>
    ensures { IfOk result (λ r. app_of r ≡ with_addresses (app_of command.entry)) }
{
    let command = with_option(
        alloc,
        command,
        "server",
        "ADDRESS",
        "Address of the server, such as 192.0.2.1 or 2001:db8::1",
    )?;
    with_option(
        alloc,
        command,
        "own",
        "ADDRESS",
        "Own address, from which the server hears the request",
    )
}

/// The command with the options that say whom to ask, and how often.
fn with_target<'a>(alloc: Global, command: Command<'a>) -> Result<Command<'a>, AllocError>
    ensures { IfOk result (λ r. app_of r ≡ with_target (app_of command.entry)) }
{
    let command = with_addresses(alloc, command)?;
    with_option(
        alloc,
        command,
        "tries",
        "N",
        "How many requests are sent at most, 1 to 20 [default: 5]",
    )
}

/// The command with the options that say which internal port is meant.
fn with_endpoint<'a>(alloc: Global, command: Command<'a>) -> Result<Command<'a>, AllocError>
    ensures { IfOk result (λ r. app_of r ≡ with_endpoint (app_of command.entry)) }
{
    let command = with_needed(alloc, command, "protocol", "PROTOCOL", "tcp or udp")?;
    with_needed(alloc, command, "port", "N", "Internal port, 1 to 65535")
}

/// The command with the options that `map` and `peer` have both.
fn with_wanted<'a>(alloc: Global, command: Command<'a>) -> Result<Command<'a>, AllocError>
    ensures { IfOk result (λ r. app_of r ≡ with_wanted (app_of command.entry)) }
{
    let command = with_endpoint(alloc, command)?;
    let command = with_option(
        alloc,
        command,
        "lifetime",
        "N",
        "Lifetime in seconds, 1 to 4294967295 [default: 7200]",
    )?;
    with_option(
        alloc,
        command,
        "external-port",
        "N",
        "External port that is suggested, 0 to 65535; 0 suggests none [default: 0]",
    )
}

/// The command with the options that say which ports are asked for.
fn with_ports<'a>(alloc: Global, command: Command<'a>) -> Result<Command<'a>, AllocError>
    ensures { IfOk result (λ r. app_of r ≡ with_ports (app_of command.entry)) }
{
    let command = with_wanted(alloc, command)?;
    let command = with_option(
        alloc,
        command,
        "size",
        "N",
        "How many ports from the internal port on, 1 to 65535 [default: 1]",
    )?;
    with_flag(
        alloc,
        command,
        "prefer-failure",
        "Rather nothing than another port than the one suggested",
    )
}

/// The command `map`.
pub(crate) fn map_command<'a>(alloc: Global) -> Result<Command<'a>, AllocError>
    ensures { IfOk result (λ r. app_of r ≡ map_app) }
{
    let command = named(
        alloc,
        "pcp map",
        "Asks a server for an external port, and prints what it grants: mapped ADDRESS PORT LIFETIME EPOCH",
        "Example: pcp map --server 192.0.2.9 --own 10.0.0.5 --protocol udp --port 5000",
    );
    with_ports(alloc, with_target(alloc, command)?)
}

/// The command `keep` for its help: its words are those of `map` but `--tries`.
pub(crate) fn keep_command<'a>(alloc: Global) -> Result<Command<'a>, AllocError> {
    let command = named(
        alloc,
        "pcp keep",
        "Asks a server for an external port, keeps it, and prints a line at each change",
        KEEP_LINES,
    );
    with_ports(alloc, with_addresses(alloc, command)?)
}

/// The command `peer`.
pub(crate) fn peer_command<'a>(alloc: Global) -> Result<Command<'a>, AllocError>
    ensures { IfOk result (λ r. app_of r ≡ peer_app) }
{
    let command = named(
        alloc,
        "pcp peer",
        "Asks a server for an external port towards one remote peer, and prints what it grants: mapped ADDRESS PORT LIFETIME EPOCH",
        "Example: pcp peer --server 192.0.2.9 --own 10.0.0.5 --protocol tcp --port 5000 --remote 198.51.100.7 --remote-port 443",
    );
    let command = with_wanted(alloc, with_target(alloc, command)?)?;
    let command = with_needed(alloc, command, "remote", "ADDRESS", "Address of the peer")?;
    with_needed(
        alloc,
        command,
        "remote-port",
        "N",
        "Port of the peer, 1 to 65535",
    )
}

/// The command `announce`.
pub(crate) fn announce_command<'a>(alloc: Global) -> Result<Command<'a>, AllocError>
    ensures { IfOk result (λ r. app_of r ≡ announce_app) }
{
    let command = named(
        alloc,
        "pcp announce",
        "Asks a server for its epoch, and prints it: epoch EPOCH",
        "Example: pcp announce --server 192.0.2.9 --own 10.0.0.5",
    );
    with_target(alloc, command)
}
