//! Why serving ended otherwise than by a stop.
use pcp_base::Failed;
use thiserror::Error;

/// Why serving ended otherwise than by a stop of the inbox.
#[derive(Clone, Copy, Debug, PartialEq, Eq, Error)]
pub enum ServeFault {
    /// The inbox failed, which it counted.
    #[error("the inbox failed")]
    Read,
    /// No memory was found, and nothing was served.
    #[error("out of memory")]
    Memory,
    /// Not all threads could be made, and nothing was dispatched.
    #[error("not all threads could be made")]
    Threads,
}

/// Why a run of all threads ended otherwise than by a stop of the inbox.
#[derive(Clone, Copy, Debug, PartialEq, Eq, Error)]
pub enum RunFault {
    /// The inbox failed, which it counted.
    #[error("the inbox failed")]
    Inbox(Failed),
    /// Not all threads could be made, and nothing was dispatched.
    #[error("not all threads could be made")]
    Threads,
}
