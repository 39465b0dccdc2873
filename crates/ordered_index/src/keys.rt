//! What leases are looked up by, and the nearest key of a map.
ghost use Rattle.std.specs.Prelude.{◌≡◌};
ghost use Rattle.ordered_index.specs.Orders.{port_at, IsLast, IsFirst};

use pcp_base::Protocol;
use std::collections::BTreeMap;

/// A protocol number and an external port.
pub type Port = (u8, u16);

pub fn port_at(protocol: Protocol, port: u16) -> Port
    ensures { result ≡ port_at protocol port }
{
    (protocol.number(), port)
}

/// The number at the last key up to this one.
pub fn last_up_to<K: Ord + Copy>(map: &BTreeMap<K, u64>, key: K) -> Option<u64>
    ensures { IsLast K.cmp map.now key result }
{
    let Some((_, number)) = map.range(..=key).next_back() else {
        return None;
    };
    Some(*number)
}

/// The first key from this one on.
pub fn first_from<K: Ord + Copy, V>(map: &BTreeMap<K, V>, key: K) -> Option<K>
    ensures { IsFirst K.cmp map.now key result }
{
    let Some((first, _)) = map.range(key..).next() else {
        return None;
    };
    Some(*first)
}
