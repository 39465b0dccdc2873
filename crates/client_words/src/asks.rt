//! The words of `map`, `peer`, `announce` and `unmap`.
ghost use Rattle.std.specs.Prelude.{◌≡◌, ◌∷◌, IfOk, codes, map, option_map, string_bytes};
ghost use Rattle.std.specs.List.{list_any};
ghost use Rattle.client_commands.specs.Commands.{IsCommand, IsOnly};
ghost use Rattle.client_words.specs.Asks.{IsAsk, IsAskAs, ask_with, begins, deleted_verb, fits};
ghost use Rattle.client_words.specs.Splits.{plain_in};

use crate::more::{More, more_in};
use crate::splits::push_plain;
use client_commands::{ClientCommand, command_of};
use pcp_base::Memory;
use std::alloc::Global;

/// What the words ask for.
#[derive(Drop)]
pub struct ClientAsk {
    pub command: ClientCommand,
    /// Whether the mapping of `command` is to be deleted. Its lifetime doesn't count then, and its nonce is
    /// there.
    pub deletes: bool,
    pub more: More,
}

/// What the words ask for: `map`, `peer` or `announce`, or `unmap`, with the words of the mapping that it
/// deletes; and among these `--nonce HEX`, `--nonce-file FILE`, `--third-party A` and, for a MAP,
/// `--filter PREFIX[,PORT]`, each with its value in the next word. `filed` is the text of the file that
/// they name. None exactly where the other words are no command, a value isn't one of its option, an
/// option is one that the command can't have, a nonce is given twice, or `unmap` has none.
pub fn ask_of(
    alloc: Global,
    words: &[String],
    filed: Option<&[u8]>,
) -> Result<Option<ClientAsk>, Memory>
    ensures { IfOk result
        (IsOnly (IsAsk (map string_bytes words.now) (option_map (λ s. s.now) filed.entry))) }
{
    let [name, rest @ ..] = words else {
        return Ok(None);
    };
    if name.as_str() == "unmap" {
        return ask_as(alloc, deleted_verb(rest), rest, filed, true);
    }
    ask_as(alloc, name, rest, filed, false)
}

/// What the words behind the first one ask for, as those of the command of this name.
fn ask_as(
    alloc: Global,
    verb: &str,
    rest: &[String],
    filed: Option<&[u8]>,
    deletes: bool,
) -> Result<Option<ClientAsk>, Memory>
    ensures { IfOk result (IsOnly (IsAskAs verb.now (map string_bytes rest.now)
        (option_map (λ s. s.now) filed.entry) deletes)) }
{
    let command = command_in(alloc, verb, rest)?;
    let more = more_in(alloc, rest, filed)?;
    Ok(ask_with(deletes, command, more))
}

fn begins(word: &str, name: &[u8]) -> bool
    ensures { result ≡ begins name.now word.now }
{
    word.as_bytes().starts_with(name)
}

/// Whether one of the words begins an option of this name.
pub(crate) fn has_option(words: &[String], name: &[u8]) -> bool
    ensures { result ≡ list_any (begins name.now) (map string_bytes words.now) }
{
    match words {
        [] => false,
        [word, rest @ ..] => begins(word, name) || has_option(rest, name),
    }
}

fn deleted_verb(rest: &[String]) -> &'static str
    ensures { result.now ≡ deleted_verb (map string_bytes rest.now) }
{
    if has_option(rest, b"--remote") {
        "peer"
    } else {
        "map"
    }
}

/// The older command of this name that the words without the options among them are.
pub(crate) fn command_in(
    alloc: Global,
    verb: &str,
    rest: &[String],
) -> Result<Option<ClientCommand>, Memory>
    ensures { IfOk result
        (IsOnly (IsCommand (verb.now ∷ plain_in (map string_bytes rest.now)))) }
{
    let mut plain = Vec::new(alloc);
    plain.push(String::from_str(alloc, verb)?)?;
    push_plain(alloc, rest, &mut plain)?;
    command_of(alloc, &plain)
}

fn fits(command: &ClientCommand, more: &More) -> bool
    ensures { result ≡ fits command.now more.now }
{
    let has_filters = !more.filters.items().is_empty();
    match command {
        ClientCommand::Map(_target, _wanted) => true,
        ClientCommand::Peer(_target, _wanted) => !has_filters,
        ClientCommand::Announce(_target) => {
            more.nonce.is_none() && more.third.is_none() && !has_filters
        }
    }
}

fn ask_with(deletes: bool, command: Option<ClientCommand>, more: Option<More>) -> Option<ClientAsk>
    ensures { result ≡ ask_with deletes command more }
{
    let command = command?;
    let more = more?;
    if !fits(&command, &more) {
        return None;
    }
    if deletes && more.nonce.is_none() {
        return None;
    }
    Some(ClientAsk {
        command,
        deletes,
        more,
    })
}
