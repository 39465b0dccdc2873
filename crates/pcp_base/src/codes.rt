//! Result codes (RFC 6887, section 7.4).
ghost use Rattle.std.specs.Prelude.{◌≡◌};
ghost use Rattle.pcp_base.specs.Codes.{code_number, lifetime_of};

/// The lifetime of an error that may pass soon, in seconds, as RFC 6887, section 7.4, recommends.
pub const SHORT_ERROR: u32 = 30;

/// The lifetime of any other error, in seconds, as RFC 6887, section 7.4, recommends.
pub const LONG_ERROR: u32 = 1_800;

/// A result code of RFC 6887, section 7.4, in the order of their numbers.
#[derive(Clone, Copy, Debug, PartialEq, Eq, Hash)]
pub enum Code {
    Success,
    UnsuppVersion,
    NotAuthorized,
    MalformedRequest,
    UnsuppOpcode,
    UnsuppOption,
    MalformedOption,
    NetworkFailure,
    NoResources,
    UnsuppProtocol,
    UserExQuota,
    CannotProvideExternal,
    AddressMismatch,
    ExcessiveRemotePeers,
}

impl Code {
    /// The number on the wire, 0 to 13.
    pub fn number(self) -> u8
        ensures { result ≡ code_number self }
    {
        self as u8
    }

    /// The seconds that an error reply with this code tells: [`SHORT_ERROR`] for an error that may pass
    /// soon, [`LONG_ERROR`] for any other, and 0 for success.
    pub fn lifetime(self) -> u32
        ensures { result ≡ lifetime_of self }
    {
        match self {
            Code::Success => 0,
            Code::NetworkFailure
            | Code::NoResources
            | Code::UserExQuota
            | Code::CannotProvideExternal => SHORT_ERROR,
            _ => LONG_ERROR,
        }
    }
}
