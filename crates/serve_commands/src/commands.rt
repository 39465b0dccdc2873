//! The words of `serve`.
ghost use Rattle.std.specs.Prelude.{◌≡◌, ◌≤◌, ℕ, Some, IfSome, IfNone, map, string_bytes};
ghost use Rattle.serve_commands.specs.Words.{ArePortTexts, IsPortText, IsServeWords};
ghost use Rattle.serve_commands.specs.declared.commands.ServePlan.{ServePlan};
ghost use Rattle.serve_commands.specs.declared.commands.TheConstants.{LAST_PORT};

use pcp_base::read_number;

/// The last port on which a server listens.
pub const LAST_PORT: u64 = 65_535;

/// The last port for the lane of the first external address: those of the others stand behind it.
pub const LAST_LANE_PORT: u64 = 65_520;

/// Where a server is asked: its UDP ports.
#[derive(Clone, Copy, Debug, PartialEq, Eq)]
pub struct ServePlan {
    /// For requests, from 1 to [`LAST_PORT`]; usually 5351 (RFC 6887, section 19.1).
    pub port: u16,
    /// For lookups through the lane of the first external address, from 1 to [`LAST_LANE_PORT`]. The
    /// lane of external address `i` has the port that lies `i` above it.
    pub lane_port: u16,
}

/// The plan of `serve CONFIG JOURNALS PORT LANEPORT`; none where the words are no such command.
pub fn serve_of(words: &[String]) -> Option<ServePlan>
    ensures value { IfSome result (IsServeWords (map string_bytes words.now)) }
    ensures only { (plan : ServePlan) → IsServeWords (map string_bytes words.now) plan
        → result ≡ Some plan }
{
    let [serve, config, journals, port, lane_port] = words else {
        return None;
    };
    if serve.as_str() != "serve" || config.is_empty() || journals.is_empty() {
        return None;
    }
    ports_of(port.as_bytes(), lane_port.as_bytes())
}

fn ports_of(port: &[u8], lane_port: &[u8]) -> Option<ServePlan>
    ensures value { IfSome result (ArePortTexts port.now lane_port.now) }
    ensures none { IfNone result
        ((plan : ServePlan) → ¬ (ArePortTexts port.now lane_port.now plan)) }
{
    let port = read_port(port, LAST_PORT)?;
    let lane_port = read_port(lane_port, LAST_LANE_PORT)?;
    Some(ServePlan { port, lane_port })
}

/// The port that the text writes in decimal, without a leading zero, from 1 to the last one.
fn read_port(text: &[u8], last: u64) -> Option<u16>
    requires { last ≤ LAST_PORT }
    ensures value { IfSome result (IsPortText last text.now) }
    ensures none { IfNone result ((port : ℕ) → ¬ (IsPortText last text.now port)) }
{
    match read_number(text, last) {
        Some(port) if port >= 1 => Some(port as u16),
        _ => None,
    }
}
