//! The command `watch`.
use crate::Ended;
use pcp_base::Memory;
use pcp_server::Status;
use watch_files::watch_over;

/// Tells the leases of a server that runs.
pub(crate) fn watch(rt: &HostRuntime, words: &[String], explains: bool) -> Ended {
    let (status, cause) = match watch_over(rt, words) {
        Ok(ended) => ended,
        Err(Memory) => return Ended::with(rt, Status::Memory),
    };
    let mut ended = Ended::with(rt, status);
    if let Some(cause) = cause
        && explains
    {
        // Without memory for it nothing is told.
        let _ = ended.told.push(cause);
    }
    ended
}
