//! The words of `keep`.
ghost use Rattle.std.specs.Prelude.{◌≡◌, IfOk, map, option_map, string_bytes};
ghost use Rattle.client_commands.specs.Commands.{IsOnly};
ghost use Rattle.client_words.specs.Asks.{IsKeep, keep_with};

use crate::asks::{command_in, has_option};
use crate::more::{More, more_in};
use client_commands::{ClientCommand, MapWanted, Target};
use pcp_base::Memory;
use std::alloc::Global;

/// What is to be kept.
#[derive(Drop)]
pub struct KeepAsk {
    /// Whom the client asks; its tries don't count.
    pub target: Target,
    pub wanted: MapWanted,
    pub more: More,
}

/// What the words of `keep` are: those of `map` but `--tries`, with the options that may stand among them.
/// `filed` is the text of the file that they name. None exactly where the first word is another, one
/// begins `--tries`, the words aren't those of `map`, or a value isn't one of its option.
pub fn keep_of(
    alloc: Global,
    words: &[String],
    filed: Option<&[u8]>,
) -> Result<Option<KeepAsk>, Memory>
    ensures { IfOk result
        (IsOnly (IsKeep (map string_bytes words.now) (option_map (λ s. s.now) filed.entry))) }
{
    let [name, rest @ ..] = words else {
        return Ok(None);
    };
    if name.as_str() != "keep" || has_option(rest, b"--tries") {
        return Ok(None);
    }
    let command = command_in(alloc, "map", rest)?;
    let more = more_in(alloc, rest, filed)?;
    Ok(keep_with(command, more))
}

fn keep_with(command: Option<ClientCommand>, more: Option<More>) -> Option<KeepAsk>
    ensures { result ≡ keep_with command more }
{
    let command = command?;
    let more = more?;
    match command {
        ClientCommand::Map(target, wanted) => Some(KeepAsk {
            target,
            wanted,
            more,
        }),
        ClientCommand::Peer(_target, _wanted) => None,
        ClientCommand::Announce(_target) => None,
    }
}
