//! What clients may believe in a world that loses, repeats and reorders packets.
ghost use Rattle.loss_world.specs.Disclosure.{ClientsHaveOrigins, LeasesAreGranted, LossesAreFound, NoBoundIsSmaller, RelaysHaveOrigins, RepliesHaveOrigins};

use client_core::losses_are_heard;
use decision_laws::{answers_tell_the_address, leases_are_granted};
use lease_core::decisions_change_leases;
use option_laws::{
    asks_are_of_requests, grants_are_read, messages_are_octets, refusals_are_errors,
    what_is_read_fits,
};
use pcp_options::successes_are_read;
use proxy_core::waits_are_kept;

/// Whatever is lost, repeated or reordered, whichever external addresses change, and through any
/// number of relays: a lease that a client holds is one that the server granted to its endpoint and to
/// its nonce, as the relays on the way rewrote it, with the external address that it had then or that a
/// later change gave it. Each response that was sent has its origin in a reply, an update or an
/// announcement of the server, and so has each epoch that a client or a relay heard: it is at most that
/// of the origin and the seconds since. A client that hears two responses, between whose origins leases
/// were lost, finds the second epoch invalid where the first was high enough (RFC 6887, section 8.5);
/// and no smaller bound would do. A relay beside a translator, which asks for ports of its own, is no
/// relay of this world.
pub fn world_law()
    ensures leases { LeasesAreGranted }
    ensures replies { RepliesHaveOrigins }
    ensures clients { ClientsHaveOrigins }
    ensures relays { RelaysHaveOrigins }
    ensures losses { LossesAreFound }
    ensures least { NoBoundIsSmaller }
{
    decisions_change_leases();
    losses_are_heard();
    what_is_read_fits();
    refusals_are_errors();
    successes_are_read();
    waits_are_kept();
    messages_are_octets();
    answers_tell_the_address();
    asks_are_of_requests();
    grants_are_read();
    leases_are_granted();
}
