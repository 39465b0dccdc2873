//! What is decided on a request.

use pcp_base::{Answer, Record};

/// An answer, and the record of what is kept of the request, if anything is.
#[derive(Clone, Copy, Debug, PartialEq, Eq)]
pub struct Decided {
    pub answer: Answer,
    pub kept: Option<Record>,
}
