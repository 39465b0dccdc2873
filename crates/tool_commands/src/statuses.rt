//! How a call of a tool's command ends.
ghost use Rattle.std.specs.Prelude.{◌≡◌};
ghost use Rattle.tool_commands.specs.ToolExits.{exit_of};

use pcp_base::Code;
use std::fmt;

/// How a call of a tool's command ended.
#[derive(Clone, Copy, Debug, PartialEq, Eq)]
pub enum ToolStatus {
    /// All was done.
    Done,
    /// The words are no command.
    WordsRefused,
    /// The inbox failed.
    LinkFault,
    /// The sink failed.
    WriteFault,
    /// No memory was found.
    Memory,
    /// There was no random word.
    EntropyFault,
    /// All tries were sent, and no answer came.
    Silence,
    /// The server refused with this code.
    Refused(Code),
    /// The server refused the order.
    OrderRefused,
    /// So much else came that no answer was waited for any more.
    Turns,
    /// The inbox gave a stop.
    Stopped,
}

impl ToolStatus {
    /// The exit status of the program.
    pub fn exit(self) -> u8
        ensures { result ≡ exit_of self }
    {
        match self {
            ToolStatus::Done => 0,
            ToolStatus::WordsRefused => 2,
            ToolStatus::LinkFault => 5,
            ToolStatus::WriteFault => 6,
            ToolStatus::Memory => 8,
            ToolStatus::EntropyFault => 10,
            ToolStatus::Silence => 11,
            ToolStatus::Refused(_) => 12,
            ToolStatus::OrderRefused => 12,
            ToolStatus::Turns => 13,
            ToolStatus::Stopped => 14,
        }
    }
}

/// The line that the program tells on standard error, without its line feed.
impl fmt::Display for ToolStatus {
    ghost use Rattle.std.specs.Prelude.{Some};
    ghost use Rattle.tool_commands.specs.ToolExits.{message_of};

    ghost output = { λ status. Some (message_of status) };

    fn fmt<W: fmt::Write>(&self, f: &mut fmt::Formatter<W>) -> fmt::Result {
        match self {
            ToolStatus::Done => f.write_str("pcp: done"),
            ToolStatus::WordsRefused => f.write_str("pcp: words refused"),
            ToolStatus::LinkFault => f.write_str("pcp: read failed"),
            ToolStatus::WriteFault => f.write_str("pcp: write failed"),
            ToolStatus::Memory => f.write_str("pcp: out of memory"),
            ToolStatus::EntropyFault => f.write_str("pcp: no random word"),
            ToolStatus::Silence => f.write_str("pcp: no answer"),
            ToolStatus::Refused(code) => write!(f, "pcp: refused with code {}", code.number()),
            ToolStatus::OrderRefused => f.write_str("pcp: refused"),
            ToolStatus::Turns => f.write_str("pcp: too many turns"),
            ToolStatus::Stopped => f.write_str("pcp: stopped"),
        }
    }
}
