//! Words that are no command of the server.
ghost use Rattle.std.specs.Prelude.{◌≡◌, ◌≢◌, IfOk, None, map, string_bytes};
ghost use Rattle.serve_commands.specs.Words.{IsServeWords};
ghost use Rattle.serve_commands.specs.declared.commands.ServePlan.{ServePlan};
ghost use Rattle.server_commands.specs.Words.{IsCommand};
ghost use Rattle.server_commands.specs.declared.commands.Command.{Command};

use crate::fields::{Field, Form, fields_cause};
use pcp_base::Memory;
use serve_commands::{LAST_LANE_PORT, LAST_PORT, serve_of};
use server_commands::{MOST_REQUESTS, command_of};
use std::alloc::Global;

// The last moment.
const LAST: u64 = (1 << 40) - 1;

static PLAY: [Field; 4] = [
    Field {
        name: "CONFIG",
        form: Form::Path,
    },
    Field {
        name: "SCRIPT",
        form: Form::Path,
    },
    Field {
        name: "JOURNALS",
        form: Form::Path,
    },
    Field {
        name: "START",
        form: Form::Number(0, LAST),
    },
];

static DUMP: [Field; 2] = [
    Field {
        name: "CONFIG",
        form: Form::Path,
    },
    Field {
        name: "JOURNALS",
        form: Form::Path,
    },
];

static LOAD: [Field; 5] = [
    Field {
        name: "CONFIG",
        form: Form::Path,
    },
    Field {
        name: "JOURNALS",
        form: Form::Path,
    },
    Field {
        name: "START",
        form: Form::Number(0, LAST),
    },
    Field {
        name: "NUMBER",
        form: Form::Number(0, u64::MAX),
    },
    Field {
        name: "COUNT",
        form: Form::Number(0, MOST_REQUESTS),
    },
];

static SERVE: [Field; 4] = [
    Field {
        name: "CONFIG",
        form: Form::Path,
    },
    Field {
        name: "JOURNALS",
        form: Form::Path,
    },
    Field {
        name: "PORT",
        form: Form::Number(1, LAST_PORT),
    },
    Field {
        name: "LANEPORT",
        form: Form::Number(1, LAST_LANE_PORT),
    },
];

/// A line, without a line feed, that tells a person why the words are no command of the server; none
/// exactly where they are one.
pub fn words_cause(alloc: Global, words: &[String]) -> Result<Option<String>, Memory>
    ensures command { (command : Command) → IsCommand (map string_bytes words.now) command
        → IfOk result (λ told. told ≡ None) }
    ensures serve { (plan : ServePlan) → IsServeWords (map string_bytes words.now) plan
        → IfOk result (λ told. told ≡ None) }
    ensures refused { ((command : Command) → ¬ (IsCommand (map string_bytes words.now) command))
        → ((plan : ServePlan) → ¬ (IsServeWords (map string_bytes words.now) plan))
        → IfOk result (λ told. told ≢ None) }
{
    let None = command_of(words) else {
        return Ok(None);
    };
    let None = serve_of(words) else {
        return Ok(None);
    };
    let line = match words {
        [command, rest @ ..] => command_cause(alloc, command.as_str(), rest)?,
        [] => String::from_str(alloc, "no command")?,
    };
    Ok(Some(line))
}

/// The words behind a command's name; none of what is no command.
fn fields_of(command: &str) -> Option<&'static [Field]> {
    if command == "play" {
        Some(&PLAY)
    } else if command == "dump" {
        Some(&DUMP)
    } else if command == "load" {
        Some(&LOAD)
    } else if command == "serve" {
        Some(&SERVE)
    } else {
        None
    }
}

/// Why these words behind the command's are none of it.
fn command_cause(alloc: Global, command: &str, words: &[String]) -> Result<String, Memory> {
    let Some(fields) = fields_of(command) else {
        return Ok(format!(in alloc; "{command}: no such command")?);
    };
    let mut texts = Vec::new(alloc);
    for word in words {
        texts.push(word.as_bytes())?;
    }
    fields_cause(alloc, &[], command, fields, &texts)
}
