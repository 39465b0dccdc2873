//! The options of each command, as `clap` is told them.
ghost use Rattle.std.specs.Prelude.{◌≡◌, IfOk, true, false};
ghost use Rattle.clap.specs.Words.{app_of, new_app, rule_of, with_rule};
ghost use Rattle.client_commands.specs.Options.{option_rule};
ghost use Rattle.proxy_commands.specs.Commands.{cascade_app, proxy_app, with_addresses, with_range, with_relay};

use clap::{Arg, Command};
use std::alloc::{AllocError, Global};

/// A command without its options.
fn named<'a>(alloc: Global, name: &'a str, about: &'a str, example: &'a str) -> Command<'a>
    ensures { app_of result ≡ new_app name.entry.now }
{
    Command::new(alloc, name).about(about).after_help(example)
}

/// The option `--name VALUE`.
fn option<'a>(alloc: Global, needed: bool, name: &'a str, value: &'a str, help: &'a str) -> Arg<'a>
    ensures rule { rule_of result ≡ option_rule needed name.entry.now }
    ensures local { result.global ≡ false }
{
    Arg::new(alloc, name)
        .long(name)
        .value_name(value)
        .help(help)
        .required(needed)
}

/// The command with one more option, which it needs.
fn with_needed<'a>(
    alloc: Global,
    command: Command<'a>,
    name: &'a str,
    value: &'a str,
    help: &'a str,
) -> Result<Command<'a>, AllocError>
    ensures { IfOk result (λ r.
        app_of r ≡ with_rule (app_of command.entry) (option_rule true name.entry.now)) }
{
    command.arg(option(alloc, true, name, value, help))
}

/// The command with one more option, which may lack.
fn with_option<'a>(
    alloc: Global,
    command: Command<'a>,
    name: &'a str,
    value: &'a str,
    help: &'a str,
) -> Result<Command<'a>, AllocError>
    ensures { IfOk result (λ r.
        app_of r ≡ with_rule (app_of command.entry) (option_rule false name.entry.now)) }
{
    command.arg(option(alloc, false, name, value, help))
}

/// The command with the options that name addresses.
fn with_addresses<'a>(alloc: Global, command: Command<'a>) -> Result<Command<'a>, AllocError>
    ensures { IfOk result (λ r. app_of r ≡ with_addresses (app_of command.entry)) }
{
    let command = with_needed(
        alloc,
        command,
        "server",
        "ADDRESS",
        "Address of the upstream server, such as 192.0.2.1 or 2001:db8::1",
    )?;
    let command = with_needed(
        alloc,
        command,
        "own",
        "ADDRESS",
        "Own address, from which the server hears requests",
    )?;
    with_needed(
        alloc,
        command,
        "inner",
        "ADDRESS",
        "Own address at which clients ask",
    )
}

/// The command with the options of both commands. The key may lack by `clap`, whose help then says so,
/// since a program may have it of a file; words without it are refused all the same.
fn with_relay<'a>(alloc: Global, command: Command<'a>) -> Result<Command<'a>, AllocError>
    ensures { IfOk result (λ r. app_of r ≡ with_relay (app_of command.entry)) }
{
    let command = with_addresses(alloc, command)?;
    with_option(
        alloc,
        command,
        "key",
        "HEX",
        "What no client may know: 64 hexadecimal digits, the same ones after a restart",
    )
}

/// The command with the options that say which ports it may give to clients.
fn with_range<'a>(alloc: Global, command: Command<'a>) -> Result<Command<'a>, AllocError>
    ensures { IfOk result (λ r. app_of r ≡ with_range (app_of command.entry)) }
{
    let command = with_needed(
        alloc,
        command,
        "low",
        "N",
        "Lowest local port that stands for a client's, 1 to 65535",
    )?;
    with_needed(
        alloc,
        command,
        "high",
        "N",
        "Highest local port that stands for a client's, 1 to 65535, not below the lowest",
    )
}

/// The command `proxy`.
pub(crate) fn proxy_command<'a>(alloc: Global) -> Result<Command<'a>, AllocError>
    ensures { IfOk result (λ r. app_of r ≡ proxy_app) }
{
    let command = named(
        alloc,
        "pcp proxy",
        "Relays the requests of clients to a server and its replies to them, until it is stopped",
        "Example: pcp proxy --server 192.0.2.9 --own 192.0.2.2 --inner 10.0.0.2 --key $(openssl rand -hex 32)",
    );
    with_relay(alloc, command)
}

/// The command `cascade`.
pub(crate) fn cascade_command<'a>(alloc: Global) -> Result<Command<'a>, AllocError>
    ensures { IfOk result (λ r. app_of r ≡ cascade_app) }
{
    let command = named(
        alloc,
        "pcp cascade",
        "Relays the requests of clients behind a translator of its own to a server, each with a local port of its own address in place of the client's, and the server's replies to them, until it is stopped",
        "Example: pcp cascade --server 192.0.2.9 --own 192.0.2.2 --inner 10.0.0.2 --low 20000 --high 29999 --key $(openssl rand -hex 32)",
    );
    with_range(alloc, with_relay(alloc, command)?)
}
