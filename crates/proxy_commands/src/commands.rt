//! The commands that the words are.
ghost use Rattle.std.specs.Prelude.{◌≡◌, ◌↔◌, IsTrue, IfOk, is_some, map, option_map, string_bytes, true};
ghost use Rattle.clap.specs.Words.{found_of, rows_of};
ghost use Rattle.client_commands.specs.Commands.{IsNamed, IsOnly, value_in};
ghost use Rattle.proxy_commands.specs.Commands.{IsCascadeCommand, IsCascadeIn, IsCommand, IsProxyIn, IsTakenBy, cascade_app, proxy_app};
ghost use Rattle.proxy_commands.specs.Helps.{asks_help, has_text};
ghost use Rattle.proxy_commands.specs.Parts.{cascade_with, proxy_with};

use crate::options::{cascade_command, proxy_command};
use crate::parses::found_in;
use crate::values::{address_at, key_at, port_at};
use clap::{ArgMatches, Command};
use client_commands::is_help;
use pcp_base::{Address, Memory};
use std::alloc::Global;

/// What a relay is told. It isn't printed, since it has the key.
#[derive(Clone, Copy, PartialEq, Eq)]
pub struct ProxyCommand {
    /// The address of the upstream server.
    pub server: Address,
    /// The relay's own address, by which the server knows it.
    pub own: Address,
    /// The relay's own address at which clients ask, for its sockets alone.
    pub inner: Address,
    /// What no client may know.
    pub key: [u8; 32],
}

/// What a relay beside a translator of its own is told. It isn't printed, since it has the key.
#[derive(Clone, Copy, PartialEq, Eq)]
pub struct CascadeCommand {
    /// What every relay is told.
    pub relay: ProxyCommand,
    /// The lowest local port that stands for a client's, at least 1.
    pub low: u16,
    /// The highest one, at least `low`.
    pub high: u16,
}

/// The command that the words are: `proxy`, and its options. None exactly where the first word
/// isn't that, `clap` refuses the words behind it, or a value isn't one of its option.
pub fn command_of(alloc: Global, words: &[String]) -> Result<Option<ProxyCommand>, Memory>
    ensures { IfOk result (IsOnly (IsCommand (map string_bytes words.now))) }
{
    if first_is(words, "proxy") {
        return proxy_of(alloc, words);
    }
    Ok(None)
}

/// The command that the words are: `cascade`, and its options. None exactly where the first word
/// isn't that, `clap` refuses the words behind it, a value isn't one of its option, or the lowest
/// port exceeds the highest.
pub fn cascade_command_of(alloc: Global, words: &[String]) -> Result<Option<CascadeCommand>, Memory>
    ensures { IfOk result (IsOnly (IsCascadeCommand (map string_bytes words.now))) }
{
    if first_is(words, "cascade") {
        return cascade_of(alloc, words);
    }
    Ok(None)
}

/// Whether the first word is this name.
fn first_is(words: &[String], name: &str) -> bool
    ensures { IsTrue result ↔ IsNamed name.now (map string_bytes words.now) }
{
    match words.first() {
        Some(first) => first.as_str() == name,
        None => false,
    }
}

/// The text of a command's help, where the words are the name of one and `--help` or `-h`.
pub fn help_of(alloc: Global, words: &[String]) -> Result<Option<String>, Memory>
    ensures { IfOk result (λ help. is_some help ≡ asks_help (map string_bytes words.now)) }
{
    let [name, help] = words else {
        return Ok(None);
    };
    if !is_help(help) {
        return Ok(None);
    }
    text_of(alloc, name)
}

/// The text of the help of this command.
fn text_of(alloc: Global, name: &str) -> Result<Option<String>, Memory>
    ensures { IfOk result (λ help. is_some help ≡ has_text name.now) }
{
    if name == "proxy" {
        return told_by(proxy_command(alloc)?);
    }
    if name == "cascade" {
        return told_by(cascade_command(alloc)?);
    }
    Ok(None)
}

fn told_by(command: Command<'static>) -> Result<Option<String>, Memory>
    ensures { IfOk result (λ help. is_some help ≡ true) }
{
    let mut command = command;
    Ok(Some(command.render_help()?))
}

/// The `proxy` that the words behind the first one say.
fn proxy_of(alloc: Global, words: &[String]) -> Result<Option<ProxyCommand>, Memory>
    ensures { IfOk result (IsOnly (IsTakenBy proxy_app IsProxyIn (map string_bytes words.now))) }
{
    let command = proxy_command(alloc)?;
    let found = found_in(command, words)?;
    match found {
        Some(matches) => Ok(proxy_in(&matches)),
        None => Ok(None),
    }
}

/// The `cascade` that the words behind the first one say.
fn cascade_of(alloc: Global, words: &[String]) -> Result<Option<CascadeCommand>, Memory>
    ensures { IfOk result
        (IsOnly (IsTakenBy cascade_app IsCascadeIn (map string_bytes words.now))) }
{
    let command = cascade_command(alloc)?;
    let found = found_in(command, words)?;
    match found {
        Some(matches) => Ok(cascade_in(&matches)),
        None => Ok(None),
    }
}

/// The value of an option.
fn value_in<'a>(matches: &ArgMatches<'a>, name: &str) -> Option<&'a str>
    ensures { option_map (λ s. s.now) result
        ≡ value_in (rows_of (found_of matches.now)) name.now }
{
    matches.get_str(name)
}

fn proxy_in(matches: &ArgMatches<'_>) -> Option<ProxyCommand>
    ensures { IsOnly (IsProxyIn (value_in (rows_of (found_of matches.now)))) result }
{
    proxy_with(
        address_at(value_in(matches, "server")),
        address_at(value_in(matches, "own")),
        address_at(value_in(matches, "inner")),
        key_at(value_in(matches, "key")),
    )
}

fn proxy_with(
    server: Option<Address>,
    own: Option<Address>,
    inner: Option<Address>,
    key: Option<[u8; 32]>,
) -> Option<ProxyCommand>
    ensures { result ≡ proxy_with server own inner key }
{
    Some(ProxyCommand {
        server: server?,
        own: own?,
        inner: inner?,
        key: key?,
    })
}

fn cascade_in(matches: &ArgMatches<'_>) -> Option<CascadeCommand>
    ensures { IsOnly (IsCascadeIn (value_in (rows_of (found_of matches.now)))) result }
{
    cascade_with(
        proxy_in(matches),
        port_at(value_in(matches, "low")),
        port_at(value_in(matches, "high")),
    )
}

fn cascade_with(
    relay: Option<ProxyCommand>,
    low: Option<u16>,
    high: Option<u16>,
) -> Option<CascadeCommand>
    ensures { result ≡ cascade_with relay low high }
{
    let command = CascadeCommand {
        relay: relay?,
        low: low?,
        high: high?,
    };
    if command.high < command.low {
        return None;
    }
    Some(command)
}
