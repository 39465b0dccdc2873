//! How a call of a command ends.
ghost use Rattle.std.specs.Prelude.{◌≡◌};
ghost use Rattle.server_commands.specs.Exits.{exit_of};

use std::fmt;

/// Why a configuration is refused.
#[derive(Clone, Copy, Debug, PartialEq, Eq)]
pub enum ConfigCause {
    /// It has more octets than a configuration may have.
    TooLong,
    /// It isn't TOML.
    NotToml,
    /// Its table is no configuration.
    NotConfig,
}

/// How a call of a command ended.
#[derive(Clone, Copy, Debug, PartialEq, Eq)]
pub enum Status {
    /// All was done.
    Done,
    /// The words are no command.
    WordsRefused,
    /// The configuration is refused.
    ConfigRefused(ConfigCause),
    /// This line, numbered from 1, is the first that is no line of a script; the lines before it are
    /// answered.
    ScriptRefused(u64),
    /// A source failed, of the configuration or of the script.
    ReadFault,
    /// The sink failed.
    WriteFault,
    /// A disk failed, of the external address with this index.
    DiskFault(u32),
    /// No memory was found.
    Memory,
}

impl Status {
    /// The exit status of the program, 0 to 8.
    pub fn exit(self) -> u8
        ensures { result ≡ exit_of self }
    {
        match self {
            Status::Done => 0,
            Status::WordsRefused => 2,
            Status::ConfigRefused(_) => 3,
            Status::ScriptRefused(_) => 4,
            Status::ReadFault => 5,
            Status::WriteFault => 6,
            Status::DiskFault(_) => 7,
            Status::Memory => 8,
        }
    }
}

impl fmt::Display for ConfigCause {
    ghost use Rattle.std.specs.Prelude.{Some};
    ghost use Rattle.server_commands.specs.Exits.{cause_text};

    ghost output = { λ cause. Some (cause_text cause) };

    fn fmt<W: fmt::Write>(&self, f: &mut fmt::Formatter<W>) -> fmt::Result {
        match self {
            ConfigCause::TooLong => f.write_str("too long"),
            ConfigCause::NotToml => f.write_str("not toml"),
            ConfigCause::NotConfig => f.write_str("not a configuration"),
        }
    }
}

/// The line that the program tells on standard error, without its line feed.
impl fmt::Display for Status {
    ghost use Rattle.std.specs.Prelude.{Some};
    ghost use Rattle.server_commands.specs.Exits.{message_of};

    ghost output = { λ status. Some (message_of status) };

    fn fmt<W: fmt::Write>(&self, f: &mut fmt::Formatter<W>) -> fmt::Result {
        match self {
            Status::Done => f.write_str("pcp: done"),
            Status::WordsRefused => f.write_str("pcp: words refused"),
            Status::ConfigRefused(cause) => write!(f, "pcp: configuration refused: {cause}"),
            Status::ScriptRefused(line) => write!(f, "pcp: script refused at line {line}"),
            Status::ReadFault => f.write_str("pcp: read failed"),
            Status::WriteFault => f.write_str("pcp: write failed"),
            Status::DiskFault(shard) => write!(f, "pcp: disk of shard {shard} failed"),
            Status::Memory => f.write_str("pcp: out of memory"),
        }
    }
}
