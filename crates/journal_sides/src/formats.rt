//! The formats of a side.

/// Which rules the records of a side follow. Octet 5 of the side tells it.
#[derive(Clone, Copy, Debug, PartialEq, Eq)]
pub enum Format {
    /// was written once, and is still read
    First,
    /// is written
    Second,
}

impl Format {
    ghost use Rattle.std.specs.Prelude.{◌≡◌, ◌≢◌, IfSome, IfNone};
    ghost use Rattle.journal_sides.specs.declared.formats.Format.{Format};
    ghost use Rattle.journal_sides.specs.Formats.{format_octet};

    /// The format of this octet 5, if one has it.
    pub fn of(octet: u8) -> Option<Format>
        ensures some { IfSome result (λ format. format_octet format ≡ octet) }
        ensures none { IfNone result ((format : Format) → format_octet format ≢ octet) }
    {
        match octet {
            1 => Some(Format::First),
            2 => Some(Format::Second),
            _ => None,
        }
    }

    /// Octet 5 of a side of this format.
    pub fn octet(self) -> u8
        ensures { result ≡ format_octet self }
    {
        match self {
            Format::First => 1,
            Format::Second => 2,
        }
    }
}
