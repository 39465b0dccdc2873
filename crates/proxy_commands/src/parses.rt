//! Words that a command takes.
ghost use Rattle.std.specs.Prelude.{◌≡◌, IfOk, true, map, string_bytes};
ghost use Rattle.clap.specs.Words.{app_of, is_simple_and_free};
ghost use Rattle.client_commands.specs.Parses.{IsFound};

use clap::error::ErrorKind;
use clap::{ArgMatches, Command};
use pcp_base::Memory;

/// What the command finds in the words behind the first one; none where it refuses them.
pub(crate) fn found_in<'a>(
    command: Command<'a>,
    words: &'a [String],
) -> Result<Option<ArgMatches<'a>>, Memory>
    requires { is_simple_and_free (app_of command) ≡ true }
    ensures { IfOk result (IsFound (app_of command.entry) (map string_bytes words.entry.now)) }
{
    match command.try_get_matches_from(words) {
        Ok(matches) => Ok(Some(matches)),
        Err(error) => {
            if error.kind() == ErrorKind::OutOfMemory {
                return Err(Memory);
            }
            Ok(None)
        }
    }
}
