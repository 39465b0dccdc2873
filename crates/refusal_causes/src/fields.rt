//! Fields with a name, as a person reads them.
use pcp_base::{Address, External, MOST_EXTERNALS, Memory, Prefix, Protocol, read_number};
use std::alloc::Global;
use std::fmt;

/// A field of a command or of a line.
#[derive(Clone, Copy)]
pub(crate) struct Field {
    pub name: &'static str,
    pub form: Form,
}

/// What a field's text has to be.
#[derive(Clone, Copy)]
pub(crate) enum Form {
    /// Any text but an empty one.
    Path,
    /// A decimal number from the first to the second, without a sign or a leading zero.
    Number(u64, u64),
    Protocol,
    Address,
    /// An external address of the configuration.
    External,
    /// Hexadecimal digits, at most so many, or `-`.
    Hex(usize),
    /// The name of a protocol.
    Transport,
    /// Exactly so many hexadecimal digits.
    Digits(usize),
    /// A prefix of hosts.
    Prefix,
    /// A prefix of remote peers, and a port of theirs or none.
    Remote,
    /// Nothing.
    Flag,
}

impl fmt::Display for Form {
    fn fmt<W: fmt::Write>(&self, f: &mut fmt::Formatter<W>) -> fmt::Result {
        match self {
            Form::Path => f.write_str("a path"),
            Form::Number(least, most) => write!(f, "a whole number from {least} to {most}"),
            Form::Protocol => f.write_str("6 or 17"),
            Form::Address => f.write_str("an address such as 10.0.0.5 or 2001:db8::5"),
            Form::External => f.write_str("an external address of the configuration"),
            Form::Transport => f.write_str("tcp or udp"),
            Form::Digits(count) => write!(f, "{count} hexadecimal digits"),
            Form::Prefix => f.write_str("a prefix such as 10.0.0.0/24"),
            Form::Remote => f.write_str("a prefix such as 198.51.100.0/24, and ,PORT or nothing"),
            Form::Flag => f.write_str("no value"),
            Form::Hex(most) => write!(f, "-, or hexadecimal digits, two an octet, at most {most}"),
        }
    }
}

impl Form {
    /// Whether the text is of this form.
    pub(crate) fn fits(self, externals: &[External], text: &[u8]) -> bool {
        match self {
            Form::Path => !text.is_empty(),
            Form::Number(least, most) => matches!(read_number(text, most), Some(n) if n >= least),
            Form::Protocol => is_protocol(text),
            Form::Address => Address::read(text).is_ok(),
            Form::External => is_external(externals, text),
            Form::Hex(most) => is_hex(text, most),
            Form::Transport => matches!(text, b"tcp" | b"udp"),
            Form::Digits(count) => text.len() == count && are_digits(text),
            Form::Prefix => Prefix::read(text).is_ok(),
            Form::Remote => is_remote(text),
            Form::Flag => false,
        }
    }
}

/// Whether the text writes the number of a protocol.
fn is_protocol(text: &[u8]) -> bool {
    match read_number(text, u64::from(u8::MAX)) {
        Some(number) => Protocol::of(number as u8).is_some(),
        None => false,
    }
}

/// Whether the text writes one of these addresses.
fn is_external(externals: &[External], text: &[u8]) -> bool {
    let Ok(address) = Address::read(text) else {
        return false;
    };
    let mut first = externals.iter().take(MOST_EXTERNALS);
    first.any(|external| external.address == address)
}

/// Whether the text has at most so many hexadecimal digits, two for each octet, or is `-`.
fn is_hex(text: &[u8], most: usize) -> bool {
    if matches!(text, [b'-']) {
        return true;
    }
    !text.is_empty() && text.len() <= most && text.len() % 2 == 0 && are_digits(text)
}

/// Whether each octet is a hexadecimal digit.
fn are_digits(text: &[u8]) -> bool {
    text.iter().all(|digit| digit.is_ascii_hexdigit())
}

/// Whether the text is a prefix, or a prefix, a comma and a port.
fn is_remote(text: &[u8]) -> bool {
    let Some(at) = text.iter().position(|octet| *octet == b',') else {
        return Prefix::read(text).is_ok();
    };
    let port = read_number(&text[at + 1..], 65_535);
    Prefix::read(&text[..at]).is_ok() && matches!(port, Some(port) if port > 0)
}

/// A line that tells the first field whose text isn't of its form, or, where there aren't as many texts,
/// which fields the word wants.
pub(crate) fn fields_cause(
    alloc: Global,
    externals: &[External],
    word: &str,
    fields: &[Field],
    texts: &[&[u8]],
) -> Result<String, Memory> {
    if texts.len() == fields.len() {
        for (field, text) in fields.iter().zip(texts) {
            if !field.form.fits(externals, text) {
                return Ok(format!(in alloc; "{}: expected {}", field.name, field.form)?);
            }
        }
    }
    let mut line = format!(in alloc; "{word}: expected")?;
    for field in fields {
        line.push(' ')?;
        line.push_str(field.name)?;
    }
    Ok(line)
}
