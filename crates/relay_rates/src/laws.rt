//! What holds of every gate. A proof that needs a law calls its function.
ghost use Rattle.relay_rates.specs.Sifting.{RatesAreKept, SendsDownSifted, SendsUpSifted, TellingIsKept};

use relay_runs::RelayMachine;

/// Whatever comes to a relay behind its gates, it sends down and up what the relay without them sends for
/// what passes, but for the announcements of upstream that don't pass.
pub fn gates_sift<M: RelayMachine>()
    ensures down { SendsDownSifted M.machine }
    ensures up { SendsUpSifted M.machine }
{}

/// Of a clock's second, where its seconds never fall, no more datagrams of clients pass than the rate says.
pub fn rates_are_kept()
    ensures { RatesAreKept }
{}

/// Of a clock's second, where its seconds never fall, no more announcements of upstream go on than the rate
/// says.
pub fn telling_is_kept<M: RelayMachine>()
    ensures { TellingIsKept M.machine }
{}
