//! What a line of the socket of orders says.
ghost use Rattle.std.specs.Prelude.{◌≡◌, ◌↔◌, ℕ, List, [], ◌∷◌, ◌++◌, codes, IsTrue, IfSome, IfNone};
ghost use Rattle.pcp_base.specs.declared.addresses.Address.{Address};
ghost use Rattle.program_links.specs.declared.order_lines.OrderLine.{OrderLine};
ghost use Rattle.program_links.specs.declared.order_lines.OrderLine.TheVariants.{Lose};
ghost use Rattle.program_links.specs.OrderLines.{IsOrderLine, IsOrderText};

use pcp_base::Address;

/// An order that comes by the socket of orders.
#[derive(Clone, Copy, Debug, PartialEq, Eq)]
pub enum OrderLine {
    /// The server is to end.
    Stop,
    /// All leases of this external address are to be lost.
    Lose(Address),
    /// How is the server?
    Status,
}

/// The order whose line these octets are, with the line feed behind it: `stop`, `lose ` and the text of an
/// address, or `status`. None where they are no such line.
pub fn read_order_line(octets: &[u8]) -> Option<OrderLine>
    ensures some { IfSome result (IsOrderLine octets.now) }
    ensures only { IfSome result (λ order. (other : OrderLine) → IsOrderLine octets.now other → other ≡ order) }
    ensures none { IfNone result ((order : OrderLine) → ¬ (IsOrderLine octets.now order)) }
{
    let Some(text) = text_of(octets) else {
        return None;
    };
    read_order_text(text)
}

/// What stands before the line feed at the end.
fn text_of(octets: &[u8]) -> Option<&[u8]>
    ensures some { IfSome result (λ text. octets.now ≡ text.now ++ 10 ∷ []) }
    ensures none { IfNone result ((text : List ℕ) → ¬ (octets.now ≡ text ++ 10 ∷ [])) }
{
    match octets {
        [text @ .., b'\n'] => Some(text),
        _ => None,
    }
}

/// The order that this text is.
fn read_order_text(text: &[u8]) -> Option<OrderLine>
    ensures some { IfSome result (IsOrderText text.now) }
    ensures only { IfSome result (λ order. (other : OrderLine) → IsOrderText text.now other → other ≡ order) }
    ensures none { IfNone result ((order : OrderLine) → ¬ (IsOrderText text.now order)) }
{
    if is_stop(text) {
        return Some(OrderLine::Stop);
    }
    if is_status(text) {
        return Some(OrderLine::Status);
    }
    match read_lost(text) {
        Some(address) => Some(OrderLine::Lose(address)),
        None => None,
    }
}

fn is_stop(text: &[u8]) -> bool
    ensures { IsTrue result ↔ (text.now ≡ codes "stop") }
{
    text == b"stop".as_slice()
}

fn is_status(text: &[u8]) -> bool
    ensures { IsTrue result ↔ (text.now ≡ codes "status") }
{
    text == b"status".as_slice()
}

/// The address whose leases are to be lost.
fn read_lost(text: &[u8]) -> Option<Address>
    ensures some { IfSome result (λ address. IsOrderText text.now (Lose address)) }
    ensures only { IfSome result (λ address.
        (other : Address) → IsOrderText text.now (Lose other) → other ≡ address) }
    ensures none { IfNone result ((address : Address) → ¬ (IsOrderText text.now (Lose address))) }
{
    let Some(behind) = behind_lose(text) else {
        return None;
    };
    match Address::read(behind) {
        Ok(address) => Some(address),
        Err(_) => None,
    }
}

/// What stands behind `lose `.
fn behind_lose(text: &[u8]) -> Option<&[u8]>
    ensures some { IfSome result (λ behind. text.now ≡ codes "lose " ++ behind.now) }
    ensures none { IfNone result ((behind : List ℕ) → ¬ (text.now ≡ codes "lose " ++ behind)) }
{
    text.strip_prefix(b"lose ")
}
