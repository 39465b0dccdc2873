//! What a test says of a table of rows.
use pcp_base::Memory;
use std::process::Abort;

/// Ends the test where a row came out otherwise, by its number, or memory was wanting.
pub(crate) fn none_other(rt: &impl Abort, other: Result<Option<usize>, Memory>) {
    assert!(rt; other == Ok(None), "{other:?}");
}
