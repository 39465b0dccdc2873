//! The last end of a port, while the port is held or rests.

ghost use Rattle.std.specs.Prelude.{◌≡◌, ℕ, IfSome};
ghost use Rattle.port_spans.specs.Runs.{run_at};
ghost use Rattle.leased_ports.specs.Leased.{while_recent};
ghost use Rattle.leased_ports.specs.Kept.{IsSet, end_by};

use crate::timed_ends::TimedEnds;
use pcp_base::{End, Protocol, REST_SECONDS};
use port_spans::{end_along, spot};

/// The last end of a port, where it is held or rests at `m`.
pub fn recent_end(ends: &TimedEnds, protocol: Protocol, port: u16, m: u64) -> Option<End>
    requires { (at : ℕ) → IfSome (run_at ends.now at) IsSet }
    ensures { result ≡ while_recent m (end_by ends.now protocol port) }
{
    let at = spot(protocol, port);
    let Some(run) = ends.run_at(at) else {
        return None;
    };
    if run.value.end + REST_SECONDS <= m {
        return None;
    }
    Some(end_along(at - run.first, &run.value))
}
