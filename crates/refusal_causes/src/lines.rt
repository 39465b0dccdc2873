//! Texts that are no line of a script.
ghost use Rattle.std.specs.Prelude.{◌≡◌, ◌≢◌, IfOk, None};
ghost use Rattle.pcp_script.specs.Lines.{IsLine};
ghost use Rattle.pcp_script.specs.declared.lines.Line.{Line};

use crate::fields::{Field, Form, fields_cause};
use pcp_base::{Config, External, Memory};
use pcp_script::{LONGEST_LINE, LineRefused, read_line};
use std::alloc::Global;

// The last moment.
const LAST: u64 = (1 << 40) - 1;

static PACKET: [Field; 4] = [
    Field {
        name: "MOMENT",
        form: Form::Number(0, LAST),
    },
    Field {
        name: "ADDRESS",
        form: Form::Address,
    },
    Field {
        name: "PORT",
        form: Form::Number(0, 65_535),
    },
    Field {
        name: "HEX",
        form: Form::Hex(4_096),
    },
];

static LOOK: [Field; 6] = [
    Field {
        name: "MOMENT",
        form: Form::Number(0, LAST),
    },
    Field {
        name: "EXTERNAL",
        form: Form::External,
    },
    Field {
        name: "PROTOCOL",
        form: Form::Protocol,
    },
    Field {
        name: "PORT",
        form: Form::Number(1, 65_535),
    },
    Field {
        name: "REMOTE",
        form: Form::Address,
    },
    Field {
        name: "REMOTEPORT",
        form: Form::Number(0, 65_535),
    },
];

static EVENT: [Field; 2] = [
    Field {
        name: "MOMENT",
        form: Form::Number(0, LAST),
    },
    Field {
        name: "EXTERNAL",
        form: Form::External,
    },
];

/// A line, without a line feed, that tells a person why the text, which is given without its line feed,
/// is no line of a script; none exactly where it is one.
pub fn line_cause(alloc: Global, config: &Config, text: &[u8]) -> Result<Option<String>, Memory>
    ensures line { (line : Line) → IsLine config.now.externals text.now line
        → IfOk result (λ told. told ≡ None) }
    ensures refused { ((line : Line) → ¬ (IsLine config.now.externals text.now line))
        → IfOk result (λ told. told ≢ None) }
{
    match read_line(alloc, config, text) {
        Ok(_) => Ok(None),
        Err(LineRefused::Memory) => Err(Memory),
        Err(LineRefused::NotLine) => Ok(Some(cause_of(alloc, config.externals.items(), text)?)),
    }
}

/// Why the text is no line.
fn cause_of(alloc: Global, externals: &[External], text: &[u8]) -> Result<String, Memory> {
    if text.len() > LONGEST_LINE {
        return Ok(format!(in alloc; "expected at most {LONGEST_LINE} octets")?);
    }
    if matches!(text, [.., b'\r']) {
        return Ok(String::from_str(alloc, "a carriage return at its end")?);
    }
    let fields = split(alloc, text)?;
    if fields.iter().any(|field| field.is_empty()) || text.contains(&b'\t') {
        return Ok(String::from_str(alloc, "expected one space between fields")?);
    }
    let Some((word, texts)) = fields.split_first() else {
        return Ok(String::from_str(alloc, "no line")?);
    };
    match fields_of(word) {
        Some((name, fields)) => fields_cause(alloc, externals, name, fields, texts),
        None => Ok(String::from_str(alloc, "expected packet, look, lose or owners")?),
    }
}

/// The fields of a text, which its spaces part.
fn split(alloc: Global, text: &[u8]) -> Result<Vec<&[u8]>, Memory> {
    let mut fields = Vec::new(alloc);
    for field in text.split(|octet| *octet == b' ') {
        fields.push(field)?;
    }
    Ok(fields)
}

/// What is told of a line that begins with this word; none where no line does.
fn fields_of(word: &[u8]) -> Option<(&'static str, &'static [Field])> {
    if word == b"packet".as_slice() {
        Some(("packet", &PACKET))
    } else if word == b"look".as_slice() {
        Some(("look", &LOOK))
    } else if word == b"lose".as_slice() {
        Some(("lose", &EVENT))
    } else if word == b"owners".as_slice() {
        Some(("owners", &EVENT))
    } else {
        None
    }
}
