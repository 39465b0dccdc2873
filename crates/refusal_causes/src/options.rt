//! Words that are no command of a tool.
use crate::fields::Form;
use pcp_base::Memory;
use std::alloc::Global;

/// An option of a tool's command.
#[derive(Clone, Copy)]
struct Choice {
    name: &'static str,
    form: Form,
    needed: bool,
}

/// The relays.
const RELAYS: [&str; 2] = ["proxy", "cascade"];

/// The options of a relay that may be given up to [`MOST_TIMES`].
const MANY_OF_RELAYS: [&str; 2] = ["inner", "third-party"];

/// How often.
const MOST_TIMES: usize = 16;

/// The options whose values stand in words of their own.
const APART: [&str; 6] = [
    "nonce",
    "nonce-file",
    "third-party",
    "filter",
    "rate",
    "key-file",
];

/// Whom a client asks and from where, which its words may leave to the program.
static TARGET: [Choice; 2] = [
    Choice {
        name: "server",
        form: Form::Address,
        needed: false,
    },
    Choice {
        name: "own",
        form: Form::Address,
        needed: false,
    },
];

static TRIES: [Choice; 1] = [Choice {
    name: "tries",
    form: Form::Number(1, 20),
    needed: false,
}];

static MAPPING: [Choice; 7] = [
    Choice {
        name: "protocol",
        form: Form::Transport,
        needed: true,
    },
    Choice {
        name: "port",
        form: Form::Number(1, 65_535),
        needed: true,
    },
    Choice {
        name: "lifetime",
        form: Form::Number(1, 4_294_967_295),
        needed: false,
    },
    Choice {
        name: "external-port",
        form: Form::Number(0, 65_535),
        needed: false,
    },
    Choice {
        name: "nonce",
        form: Form::Digits(24),
        needed: false,
    },
    Choice {
        name: "nonce-file",
        form: Form::Path,
        needed: false,
    },
    Choice {
        name: "third-party",
        form: Form::Address,
        needed: false,
    },
];

static MAP: [Choice; 3] = [
    Choice {
        name: "size",
        form: Form::Number(1, 65_535),
        needed: false,
    },
    Choice {
        name: "prefer-failure",
        form: Form::Flag,
        needed: false,
    },
    Choice {
        name: "filter",
        form: Form::Remote,
        needed: false,
    },
];

static PEER: [Choice; 2] = [
    Choice {
        name: "remote",
        form: Form::Address,
        needed: true,
    },
    Choice {
        name: "remote-port",
        form: Form::Number(1, 65_535),
        needed: true,
    },
];

static RELAY: [Choice; 4] = [
    Choice {
        name: "server",
        form: Form::Address,
        needed: true,
    },
    Choice {
        name: "own",
        form: Form::Address,
        needed: true,
    },
    Choice {
        name: "inner",
        form: Form::Address,
        needed: true,
    },
    Choice {
        name: "key",
        form: Form::Digits(64),
        needed: false,
    },
];

static GATE: [Choice; 2] = [
    Choice {
        name: "key-file",
        form: Form::Path,
        needed: false,
    },
    Choice {
        name: "rate",
        form: Form::Number(1, 100_000),
        needed: false,
    },
];

static TRUSTED: [Choice; 1] = [Choice {
    name: "third-party",
    form: Form::Prefix,
    needed: false,
}];

static LOCALS: [Choice; 2] = [
    Choice {
        name: "low",
        form: Form::Number(1, 65_535),
        needed: true,
    },
    Choice {
        name: "high",
        form: Form::Number(1, 65_535),
        needed: true,
    },
];

/// The options of a command, in four groups.
#[derive(Clone, Copy)]
struct Choices {
    first: &'static [Choice],
    second: &'static [Choice],
    third: &'static [Choice],
    fourth: &'static [Choice],
}

/// The options of these groups.
fn groups_of(
    first: &'static [Choice],
    second: &'static [Choice],
    third: &'static [Choice],
    fourth: &'static [Choice],
) -> Choices {
    Choices {
        first,
        second,
        third,
        fourth,
    }
}

/// The options of a command; none of what is no command of a tool.
fn choices_of(command: &str, words: &[String]) -> Option<Choices> {
    match command {
        "map" => Some(groups_of(&TARGET, &TRIES, &MAPPING, &MAP)),
        "keep" => Some(groups_of(&TARGET, &[], &MAPPING, &MAP)),
        "peer" => Some(groups_of(&TARGET, &TRIES, &MAPPING, &PEER)),
        "unmap" if has_remote(words) => Some(groups_of(&TARGET, &TRIES, &MAPPING, &PEER)),
        "unmap" => Some(groups_of(&TARGET, &TRIES, &MAPPING, &MAP)),
        "announce" => Some(groups_of(&TARGET, &TRIES, &[], &[])),
        "proxy" => Some(groups_of(&RELAY, &GATE, &TRUSTED, &[])),
        "cascade" => Some(groups_of(&RELAY, &GATE, &LOCALS, &[])),
        _ => None,
    }
}

/// Whether the words name a remote peer, or its port.
fn has_remote(words: &[String]) -> bool {
    words
        .iter()
        .any(|word| word.as_bytes().starts_with(b"--remote"))
}

/// The option of this name.
fn choice_in(choices: Choices, name: &str) -> Option<Choice> {
    let Choices {
        first,
        second,
        third,
        fourth,
    } = choices;
    choice_of(first, name)
        .or(choice_of(second, name))
        .or(choice_of(third, name))
        .or(choice_of(fourth, name))
}

/// The option of this name in a group.
fn choice_of(group: &[Choice], name: &str) -> Option<Choice> {
    for choice in group {
        if choice.name == name {
            return Some(*choice);
        }
    }
    None
}

/// A line, without a line feed, that tells a person which of the words is none of a tool's command and why;
/// none where that isn't found. The one error is want of memory.
pub fn tool_cause(alloc: Global, words: &[String]) -> Result<Option<String>, Memory> {
    let [command, rest @ ..] = words else {
        return Ok(None);
    };
    let Some(choices) = choices_of(command.as_str(), rest) else {
        return Ok(None);
    };
    let mut given = Vec::new(alloc);
    if let Some(line) = word_cause(alloc, command.as_str(), choices, rest, &mut given)? {
        return Ok(Some(line));
    }
    if let Some(line) = missing_cause(alloc, choices, &given)? {
        return Ok(Some(line));
    }
    if RELAYS.contains(&command.as_str()) {
        return relay_cause(alloc, &given);
    }
    nonce_cause(alloc, command.as_str(), &given)
}

/// Whether this option of the command may be given several times.
fn may_repeat(command: &str, name: &str) -> bool {
    if RELAYS.contains(&command) {
        MANY_OF_RELAYS.contains(&name)
    } else {
        name == "filter"
    }
}

/// How often the option is among these.
fn times_of(name: &str, given: &[&str]) -> usize {
    given.iter().filter(|other| **other == name).count()
}

/// What is wrong with the key of a relay, or with how often an option stands.
fn relay_cause(alloc: Global, given: &[&str]) -> Result<Option<String>, Memory> {
    for name in MANY_OF_RELAYS {
        if times_of(name, given) > MOST_TIMES {
            return Ok(Some(format!(in alloc; "--{name}: more than {MOST_TIMES} times")?));
        }
    }
    let line = match (given.contains(&"key"), given.contains(&"key-file")) {
        (true, true) => "--key and --key-file: one of both",
        (false, false) => "--key: missing",
        _ => return Ok(None),
    };
    Ok(Some(String::from_str(alloc, line)?))
}

/// Which word is none, and why; the options' names are left in `given`.
fn word_cause<'a>(
    alloc: Global,
    command: &str,
    choices: Choices,
    words: &'a [String],
    given: &mut Vec<&'a str>,
) -> Result<Option<String>, Memory> {
    let mut waiting: Option<Choice> = None;
    for word in words {
        if let Some(choice) = waiting {
            waiting = None;
            if !choice.form.fits(&[], word.as_bytes()) {
                return value_cause(alloc, choice);
            }
            continue;
        }
        let (name, value) = option_in(word.as_str());
        let Some(choice) = choice_in(choices, name) else {
            return Ok(Some(format!(in alloc; "{word}: no option of {command}")?));
        };
        if !may_repeat(command, name) && given.contains(&name) {
            return Ok(Some(format!(in alloc; "--{name}: given twice")?));
        }
        if value.is_some() && APART.contains(&name) {
            return Ok(Some(format!(in alloc; "--{name}: expected its value in the next word")?));
        }
        given.push(name)?;
        match (choice.form, value) {
            (Form::Flag, None) => {}
            (_, None) => waiting = Some(choice),
            (Form::Flag, Some(_)) => return value_cause(alloc, choice),
            (form, Some(value)) if form.fits(&[], value.as_bytes()) => {}
            (_, Some(_)) => return value_cause(alloc, choice),
        }
    }
    match waiting {
        Some(choice) => value_cause(alloc, choice),
        None => Ok(None),
    }
}

/// The name of the option that a word begins, empty where it begins none, and the value behind it.
fn option_in(word: &str) -> (&str, Option<&str>) {
    let Some(name) = word.strip_prefix("--") else {
        return ("", None);
    };
    match name.split_once('=') {
        Some((name, value)) => (name, Some(value)),
        None => (name, None),
    }
}

/// What the value of an option has to be.
fn value_cause(alloc: Global, choice: Choice) -> Result<Option<String>, Memory> {
    let Choice { name, form, .. } = choice;
    Ok(Some(format!(in alloc; "--{name}: expected {form}")?))
}

/// Which option is missing.
fn missing_cause(
    alloc: Global,
    choices: Choices,
    given: &[&str],
) -> Result<Option<String>, Memory> {
    let Choices {
        first,
        second,
        third,
        fourth,
    } = choices;
    let missing = missing_of(first, given)
        .or(missing_of(second, given))
        .or(missing_of(third, given))
        .or(missing_of(fourth, given));
    match missing {
        Some(name) => Ok(Some(format!(in alloc; "--{name}: missing")?)),
        None => Ok(None),
    }
}

/// The first option of a group that is missing.
fn missing_of(group: &[Choice], given: &[&str]) -> Option<&'static str> {
    for choice in group {
        if choice.needed && !given.contains(&choice.name) {
            return Some(choice.name);
        }
    }
    None
}

/// What is wrong with the options of a nonce.
fn nonce_cause(alloc: Global, command: &str, given: &[&str]) -> Result<Option<String>, Memory> {
    let line = match (given.contains(&"nonce"), given.contains(&"nonce-file")) {
        (true, true) => "--nonce and --nonce-file: one of both",
        (false, false) if command == "unmap" => "unmap: --nonce or --nonce-file is missing",
        _ => return Ok(None),
    };
    Ok(Some(String::from_str(alloc, line)?))
}
