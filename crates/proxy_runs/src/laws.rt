//! What holds of every run of a relay. A proof that needs a law calls its function.
ghost use Rattle.proxy_runs.specs.Answers.{DownIsAnswered};

use crate::machines::ProxyMachine;
use proxy_core::replies_stand_for_pairs;
use relay_rates::gates_sift;

/// Whatever comes to a relay, each datagram that it sends down is its own reply to the sender of a
/// datagram that passed its gate, or what the server said to a request that went up, for the client
/// that asked it, or an ANNOUNCE response of the server.
pub fn what_goes_down_is_answered()
    ensures { DownIsAnswered }
{
    replies_stand_for_pairs();
    gates_sift::<ProxyMachine>();
}
