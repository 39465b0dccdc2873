//! What is asked of a pool, and its answer.

ghost use Rattle.std.specs.Prelude.{◌≡◌};
ghost use Rattle.external_pool.specs.Asking as Asking;

use thiserror::Error;

/// An ask for external ports.
#[derive(Clone, Copy, Debug)]
pub struct PickAsk {
    /// The first internal port.
    pub internal: u16,
    /// The suggested external port, 0 for none.
    pub suggested: u16,
    /// How many ports are asked for.
    pub asked: u32,
    /// How many ports may be picked at most, apart from the quota.
    pub room: u32,
    /// The remainder by 2 that the first external port is to have, if one is asked.
    pub parity: Option<u8>,
    /// Whether anything but what is asked and suggested is refused.
    pub must: bool,
    /// Whether the suggested address is this one.
    pub here: bool,
}

/// The ports that were picked.
#[derive(Clone, Copy, Debug, PartialEq, Eq)]
pub struct Picked {
    pub start: u16,
    pub count: u32,
}

/// Why no ports are picked. The first cause that applies is told.
#[derive(Clone, Copy, Debug, PartialEq, Eq, Error)]
pub enum PickRefused {
    /// The address owns so many ports, and that is at least the quota.
    #[error("the address owns {0} ports")]
    Quota(u32),
    /// What is asked and suggested can't be given, and nothing else is wanted.
    #[error("not what was asked for")]
    CannotProvide,
    /// No port is vacant.
    #[error("no port is vacant")]
    NoPort,
}

/// Whether it is all that was asked for and what was suggested.
fn is_as_asked(ask: &PickAsk, choice: Option<Picked>) -> bool
    ensures { result ≡ Asking.is_as_asked ask.now choice }
{
    match choice {
        None => false,
        Some(run) => {
            run.count == ask.asked && (ask.suggested == 0 || ask.suggested == run.start) && ask.here
        }
    }
}

/// The answer to an ask for which these ports would be picked.
pub fn judge(ask: &PickAsk, choice: Option<Picked>) -> Result<Picked, PickRefused>
    ensures { result ≡ Asking.answer_to ask.now choice }
{
    if ask.must && !is_as_asked(ask, choice) {
        return Err(PickRefused::CannotProvide);
    }
    match choice {
        None => Err(PickRefused::NoPort),
        Some(run) => Ok(run),
    }
}
