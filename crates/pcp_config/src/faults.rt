//! A place in a configuration that is at fault, as a person reads it.
use crate::LONGEST_LINK;
use pcp_base::{MOST_DOORS, MOST_EXTERNALS, MOST_SUBSCRIBERS, MOST_THIRD_PARTIES};
use std::fmt;

/// What is at fault, and what was expected there.
#[derive(Clone, Copy)]
pub(crate) struct Fault<'a> {
    pub place: Place<'a>,
    pub expected: Expected,
}

/// A place in a configuration. Rows of a list are counted from 0.
#[derive(Clone, Copy)]
pub(crate) enum Place<'a> {
    Key(&'a str),
    Row(&'a str, usize),
    Field(&'a str, usize, &'a str),
}

/// What was expected at a place.
#[derive(Clone, Copy)]
pub(crate) enum Expected {
    NoSuchKey,
    /// The key is missing.
    Key,
    /// A whole number from the first to the second.
    Number(u32, u32),
    Prefixes,
    Prefix,
    Externals,
    DifferentAddresses,
    Table,
    Address,
    ExternalAddress,
    Subscribers,
    Listen,
    HostAddress,
    LinkLocal,
    LinkName,
    DifferentDoors,
    Orders,
}

impl fmt::Display for Fault<'_> {
    fn fmt<W: fmt::Write>(&self, f: &mut fmt::Formatter<W>) -> fmt::Result {
        write!(f, "{}: {}", self.place, self.expected)
    }
}

impl fmt::Display for Place<'_> {
    fn fmt<W: fmt::Write>(&self, f: &mut fmt::Formatter<W>) -> fmt::Result {
        match self {
            Place::Key(key) => write!(f, "{}", Key(key)),
            Place::Row(list, index) => write!(f, "{list} {}", index.saturating_add(1)),
            Place::Field(list, index, key) => {
                write!(f, "{list} {}, {}", index.saturating_add(1), Key(key))
            }
        }
    }
}

impl fmt::Display for Expected {
    fn fmt<W: fmt::Write>(&self, f: &mut fmt::Formatter<W>) -> fmt::Result {
        match self {
            Expected::NoSuchKey => f.write_str("unknown key"),
            Expected::Key => f.write_str("missing"),
            Expected::Number(low, high) => write!(
                f,
                "expected a whole number from {low} to {high}"
            ),
            Expected::Prefixes => write!(
                f,
                "expected a list of at most {MOST_THIRD_PARTIES} prefixes"
            ),
            Expected::Prefix => f.write_str("expected a prefix such as \"10.0.0.0/8\""),
            Expected::Externals => write!(f, "expected 1 to {MOST_EXTERNALS} tables"),
            Expected::DifferentAddresses => f.write_str("expected tables with different addresses"),
            Expected::Table => f.write_str("expected a table"),
            Expected::Address => f.write_str(
                "expected an address such as \"192.0.2.1\" or \"2001:db8::1\"",
            ),
            Expected::ExternalAddress => f.write_str("expected the address of an external"),
            Expected::Subscribers => write!(f, "expected at most {MOST_SUBSCRIBERS} tables"),
            Expected::Listen => write!(f, "expected a list of 1 to {MOST_DOORS} addresses"),
            Expected::HostAddress => f.write_str(
                "expected the address of a host, neither all-zero nor a multicast one",
            ),
            Expected::LinkLocal => f.write_str("expected a link-local address before %"),
            Expected::LinkName => write!(
                f,
                "expected the name of a link behind %, of at most {LONGEST_LINK} characters"
            ),
            Expected::DifferentDoors => f.write_str("expected different addresses"),
            Expected::Orders => f.write_str("expected \"loopback\" or \"folder\""),
        }
    }
}

// A key, in quotes where it isn't a bare one, so that it stays on one line.
#[derive(Clone, Copy)]
struct Key<'a>(&'a str);

impl fmt::Display for Key<'_> {
    fn fmt<W: fmt::Write>(&self, f: &mut fmt::Formatter<W>) -> fmt::Result {
        if is_bare(self.0) {
            f.write_str(self.0)
        } else {
            write!(f, "{:?}", self.0)
        }
    }
}

fn is_bare(key: &str) -> bool {
    !key.is_empty()
        && key.bytes().all(|octet| octet.is_ascii_alphanumeric() || octet == b'_' || octet == b'-')
}
