//! By what ties are looked up.
ghost use Rattle.std.specs.Prelude.{◌≡◌};
ghost use Rattle.cascade_ties.specs.Kept.{place_of_tie, port_of_tie};

use crate::ties::Tied;
use ordered_index::{Numbered, Place, Port, place_of, port_at};

/// Ties by numbers that grow, and the numbers by clients and by local ports.
pub(crate) type Numbers = Numbered<Tied, Place, Port>;

/// The place of the client's endpoint.
pub(crate) fn client_of(tied: &Tied) -> Place
    ensures { result ≡ place_of_tie tied.now }
{
    place_of(&tied.tie.client)
}

/// The protocol and the local port.
pub(crate) fn local_of(tied: &Tied) -> Port
    ensures { result ≡ port_of_tie tied.now }
{
    port_at(tied.tie.client.protocol, tied.tie.local)
}
