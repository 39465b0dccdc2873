//! The words of orders.
ghost use Rattle.std.specs.Prelude.{◌≡◌, Some, IfSome, IfNone, map, string_bytes};
ghost use Rattle.std.specs.Bool.{OnFalse, OnTrue};
ghost use Rattle.pcp_base.specs.AddressTexts.{IsAddressText};
ghost use Rattle.pcp_base.specs.declared.addresses.Address.{Address};
ghost use Rattle.order_commands.specs.OrderWords.{IsLoseWords, IsOrderWords, IsPlainWords};
ghost use Rattle.order_commands.specs.declared.commands.OrderPlan.{OrderPlan};

use pcp_base::Address;

/// What is ordered of a server that runs.
#[derive(Clone, Copy, Debug, PartialEq, Eq)]
pub enum OrderPlan {
    /// `stop JOURNALS`: it ends.
    Stop,
    /// `lose JOURNALS ADDRESS`: the leases of this external address are lost.
    Lose(Address),
    /// `status JOURNALS`: it tells how it is.
    Status,
}

/// The order that the words are; none where they are no order. ADDRESS is any text that
/// [`Address::read`] takes.
pub fn order_of(words: &[String]) -> Option<OrderPlan>
    ensures value { IfSome result (IsOrderWords (map string_bytes words.now)) }
    ensures only { (plan : OrderPlan) → IsOrderWords (map string_bytes words.now) plan
        → result ≡ Some plan }
{
    if is_plain(words, "stop") {
        return Some(OrderPlan::Stop);
    }
    if is_plain(words, "status") {
        return Some(OrderPlan::Status);
    }
    if let Some(address) = lost_by(words) {
        return Some(OrderPlan::Lose(address));
    }
    None
}

// Whether the words are this command and a folder.
fn is_plain(words: &[String], command: &str) -> bool
    ensures yes { OnTrue result (IsPlainWords command.now (map string_bytes words.now)) }
    ensures no { OnFalse result (¬ (IsPlainWords command.now (map string_bytes words.now))) }
{
    let [first, journals] = words else {
        return false;
    };
    if first.as_str() != command || journals.is_empty() {
        return false;
    }
    true
}

// The ADDRESS of a `lose`.
fn lost_by(words: &[String]) -> Option<Address>
    ensures value { IfSome result (IsLoseWords (map string_bytes words.now)) }
    ensures only { IfSome result (λ a. (b : Address)
        → IsLoseWords (map string_bytes words.now) b → b ≡ a) }
    ensures none { IfNone result
        ((address : Address) → ¬ (IsLoseWords (map string_bytes words.now) address)) }
{
    let [lose, journals, address] = words else {
        return None;
    };
    if lose.as_str() != "lose" || journals.is_empty() {
        return None;
    }
    read_address(address.as_bytes())
}

// The address that the text writes.
fn read_address(text: &[u8]) -> Option<Address>
    ensures value { IfSome result (IsAddressText text.now) }
    ensures only { IfSome result (λ a. (b : Address) → IsAddressText text.now b → b ≡ a) }
    ensures none { IfNone result ((address : Address) → ¬ (IsAddressText text.now address)) }
{
    match Address::read(text) {
        Ok(address) => Some(address),
        Err(_) => None,
    }
}
