//! The words of the commands.
ghost use Rattle.std.specs.Prelude.{◌≡◌, IfOk, drop, map, option_map, string_bytes};
ghost use Rattle.client_commands.specs.Commands.{IsOnly};
ghost use Rattle.relay_words.specs.Mores.{IsMore};
ghost use Rattle.relay_words.specs.Relaying.{IsCascade, IsProxy, cascade_with, older_in, proxy_with};

use crate::keys::push_key;
use crate::more::{RelayMore, more_in};
use crate::splits::{push_plain, push_word};
use pcp_base::Memory;
use proxy_commands::{CascadeCommand, ProxyCommand, cascade_command_of, command_of};
use std::alloc::Global;

/// What the words tell a relay. It isn't printed, since it has the key.
#[derive(Drop)]
pub struct ProxyAsk {
    pub command: ProxyCommand,
    pub more: RelayMore,
}

/// What the words tell a relay beside a translator of its own. It isn't printed, since it has the key.
#[derive(Drop)]
pub struct CascadeAsk {
    pub command: CascadeCommand,
    /// In which nobody's THIRD_PARTY is passed on.
    pub more: RelayMore,
}

/// What the words of `proxy` say, with the options that may stand among them: `--inner` behind the first
/// one, `--third-party PREFIX`, `--rate N`, and `--key-file FILE` in place of `--key`, each with its value
/// in the next word. `filed` is the text of the file that they name, without a line feed at its end. None
/// exactly where the other words are no `proxy`, a value isn't one of its option, a rate or a file is
/// given twice, the file has no text, or an option stands more often than it may.
pub fn proxy_ask_of(
    alloc: Global,
    words: &[String],
    filed: Option<&str>,
) -> Result<Option<ProxyAsk>, Memory>
    ensures { IfOk result
        (IsOnly (IsProxy (map string_bytes words.now) (option_map (λ s. s.now) filed.entry))) }
{
    let Some(older) = older_in(alloc, words, filed)? else {
        return Ok(None);
    };
    let command = command_of(alloc, &older)?;
    let more = more_behind(alloc, words)?;
    Ok(proxy_with(command, more))
}

/// What the words of `cascade` say, likewise, but that it has no `--third-party`.
pub fn cascade_ask_of(
    alloc: Global,
    words: &[String],
    filed: Option<&str>,
) -> Result<Option<CascadeAsk>, Memory>
    ensures { IfOk result
        (IsOnly (IsCascade (map string_bytes words.now) (option_map (λ s. s.now) filed.entry))) }
{
    let Some(older) = older_in(alloc, words, filed)? else {
        return Ok(None);
    };
    let command = cascade_command_of(alloc, &older)?;
    let more = more_behind(alloc, words)?;
    Ok(cascade_with(command, more))
}

/// The words of the older command; none where they name no file with a key that is one.
fn older_in(
    alloc: Global,
    words: &[String],
    filed: Option<&str>,
) -> Result<Option<Vec<String>>, Memory>
    ensures { IfOk result (λ older. option_map (λ o. map string_bytes o.items) older
        ≡ older_in (map string_bytes words.now) (option_map (λ s. s.now) filed.entry)) }
{
    let [name, rest @ ..] = words else {
        return Ok(None);
    };
    let mut older = Vec::new(alloc);
    push_word(alloc, name, &mut older)?;
    if !push_key(alloc, rest, filed, &mut older)? {
        return Ok(None);
    }
    push_plain(alloc, rest, false, &mut older)?;
    Ok(Some(older))
}

/// What the words behind the first one say by the options among them.
fn more_behind(alloc: Global, words: &[String]) -> Result<Option<RelayMore>, Memory>
    ensures { IfOk result (IsOnly (IsMore (drop 1 (map string_bytes words.now)))) }
{
    match words {
        [] => more_in(alloc, words),
        [_name, rest @ ..] => more_in(alloc, rest),
    }
}

fn proxy_with(command: Option<ProxyCommand>, more: Option<RelayMore>) -> Option<ProxyAsk>
    ensures { result ≡ proxy_with command more }
{
    Some(ProxyAsk {
        command: command?,
        more: more?,
    })
}

fn cascade_with(command: Option<CascadeCommand>, more: Option<RelayMore>) -> Option<CascadeAsk>
    ensures { result ≡ cascade_with command more }
{
    let command = command?;
    let more = more?;
    if !more.third_party.items().is_empty() {
        return None;
    }
    Some(CascadeAsk { command, more })
}
