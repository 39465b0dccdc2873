//! Orders that come from the host itself.
ghost use Rattle.std.specs.Prelude.{◌≡◌, ℕ, ◌↔◌, List, ◌++◌, codes, IsTrue, IfSome, IfNone};
ghost use Rattle.pcp_base.specs.declared.addresses.Address.{Address};
ghost use Rattle.pcp_io.specs.declared.inboxes.Incoming.TheVariants.{Lose};
ghost use Rattle.pcp_io.specs.Controls.{IsOrder, IsSaid, Says};
ghost use Rattle.pcp_io.specs.Takes.{filled};

use crate::inboxes::Incoming;
use pcp_base::Address;

/// The door of orders, at 127.0.0.1. No order comes by another one.
pub const ORDER_DOOR: u8 = 255;

/// What a datagram of 127.0.0.1 orders that came by the door of orders and whose first octet is `ff`: `stop` behind it a stop, `lose ` and
/// the text of an address that its leases are lost; any other is passed over, as if none had come. None
/// where the datagram is no order.
pub(crate) fn read_control(door: u8, peer: &Address, octets: &[u8]) -> Option<Incoming>
    ensures order { IfSome result (λ incoming.
        (text : List ℕ) × IsOrder door peer.now octets.now text × IsSaid text incoming) }
    ensures none { IfNone result ((text : List ℕ) → ¬ (IsOrder door peer.now octets.now text)) }
    ensures filled { IfSome result (λ incoming. filled incoming ≡ 0) }
{
    let order = order_of(door, peer, octets)?;
    Some(read_order(order))
}

/// The text of an order; none where the datagram is none.
fn order_of<'a>(door: u8, peer: &Address, octets: &'a [u8]) -> Option<&'a [u8]>
    ensures some { IfSome result (λ text. IsOrder door peer.now octets.now text.now) }
    ensures none { IfNone result ((text : List ℕ) → ¬ (IsOrder door peer.now octets.now text)) }
{
    if door != ORDER_DOOR || *peer != Address::v4(127, 0, 0, 1) {
        return None;
    }
    octets.strip_prefix(b"\xff")
}

/// What the text of an order says.
fn read_order(text: &[u8]) -> Incoming
    ensures said { IsSaid text.now result }
    ensures filled { filled result ≡ 0 }
{
    if is_stop(text) {
        return Incoming::Stop;
    }
    match read_lost(text) {
        Some(address) => Incoming::Lose(0, address),
        None => Incoming::Quiet,
    }
}

fn is_stop(text: &[u8]) -> bool
    ensures { IsTrue result ↔ (text.now ≡ codes "stop") }
{
    text == b"stop".as_slice()
}

/// The address whose leases are to be lost.
fn read_lost(text: &[u8]) -> Option<Address>
    ensures said { IfSome result (λ address. Says text.now (Lose 0 address)) }
    ensures only { IfSome result (λ address.
        (other : Address) → Says text.now (Lose 0 other) → other ≡ address) }
    ensures none { IfNone result ((address : Address) → ¬ (Says text.now (Lose 0 address))) }
{
    let Some(behind) = behind_lose(text) else {
        return None;
    };
    match Address::read(behind) {
        Ok(address) => Some(address),
        Err(_) => None,
    }
}

/// What stands behind `lose `.
fn behind_lose(text: &[u8]) -> Option<&[u8]>
    ensures some { IfSome result (λ behind. text.now ≡ codes "lose " ++ behind.now) }
    ensures none { IfNone result ((behind : List ℕ) → ¬ (text.now ≡ codes "lose " ++ behind)) }
{
    text.strip_prefix(b"lose ")
}
