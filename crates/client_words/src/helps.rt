//! The help of each command.
ghost use Rattle.std.specs.Prelude.{◌≡◌, IfOk, is_some, map, string_bytes};
ghost use Rattle.client_commands.specs.Helps.{asks_help as older_help};
ghost use Rattle.client_words.specs.Helps.{asks_help};

use client_commands::is_help;
use pcp_base::Memory;
use std::alloc::Global;

/// Whom a client asks where its words don't say it.
const ROUTER: &str = "
Without --server the router of IPv4's default route is asked, and without --own from the address by which
the system reaches the server.
";

/// The options that may stand among those of a mapping.
const MORE: &str = "
Options of the mapping, each with its value in the next word:
      --nonce <HEX>             Its nonce, 24 hexadecimal digits; the same words renew it
      --nonce-file <FILE>       A file with the nonce; where it is missing it is made
      --third-party <ADDRESS>   The host that it is for, where that isn't this one
";

/// The one that a MAP alone may have.
const FILTER: &str =
    "      --filter <PREFIX[,PORT]>  A remote peer that may send to it, up to 8 times
";

const MAP_EXAMPLE: &str = "
Example: pcp map --protocol udp --port 5000 --nonce-file port-5000.nonce
";

const KEEP_EXAMPLE: &str = "
Example: pcp keep --protocol tcp --port 443 --nonce-file port-443.nonce
";

const UNMAP: &str = "Deletes a mapping, and prints: deleted EPOCH

Usage: pcp unmap (--nonce <HEX> | --nonce-file <FILE>) --protocol <PROTOCOL> --port <N> [OPTIONS]

The options are those of pcp map, or with --remote and --remote-port those of pcp peer, as they were when
the mapping was asked for. The lifetime doesn't count.

Example: pcp unmap --protocol udp --port 5000 --nonce-file port-5000.nonce
";

/// The text of a command's help, where the words are the name of one and `--help` or `-h`.
pub fn help_of(alloc: Global, words: &[String]) -> Result<Option<String>, Memory>
    ensures { IfOk result (λ help. is_some help ≡ asks_help (map string_bytes words.now)) }
{
    let [name, help] = words else {
        return Ok(None);
    };
    if !is_help(help) {
        return Ok(None);
    }
    if name.as_str() == "unmap" {
        return Ok(Some(String::from_str(alloc, UNMAP)?));
    }
    with_more(alloc, words)
}

/// The text of the help of a command that `clap` knows, and more behind it.
fn with_more(alloc: Global, words: &[String]) -> Result<Option<String>, Memory>
    ensures { IfOk result (λ help. is_some help ≡ older_help (map string_bytes words.now)) }
{
    let Some(help) = client_commands::help_of(alloc, words)? else {
        return Ok(None);
    };
    let mut text = help;
    push_more(&mut text, words)?;
    Ok(Some(text))
}

/// Appends the options that may stand among those of the command, and an example with one.
fn push_more(text: &mut String, words: &[String]) -> Result<(), Memory> {
    let [name, ..] = words else {
        return Ok(());
    };
    text.push_str(ROUTER)?;
    match name.as_str() {
        "map" => push_all(text, &[MORE, FILTER, MAP_EXAMPLE]),
        "keep" => push_all(text, &[MORE, FILTER, KEEP_EXAMPLE]),
        "peer" => push_all(text, &[MORE]),
        _ => Ok(()),
    }
}

fn push_all(text: &mut String, pieces: &[&str]) -> Result<(), Memory> {
    for piece in pieces {
        text.push_str(piece)?;
    }
    Ok(())
}
