//! Addresses and nonces as JSON.
ghost use Rattle.std.specs.Prelude.{◌≡◌, IfOk, string_bytes};
ghost use Rattle.pcp_base.specs.AddressTexts.{address_text};
ghost use Rattle.serde_json.specs.View.{view};
ghost use Rattle.lease_json.specs.Objects.{address_value, nonce_value};

use pcp_base::{Address, Memory, Nonce};
use serde_json::Value;
use std::alloc::Global;

/// The address as a JSON string: dotted where it is an IPv4 address, else 32 lower-case hexadecimal
/// digits.
pub fn address_of(alloc: Global, address: &Address) -> Result<Value, Memory>
    ensures { IfOk result (λ v. view v ≡ address_value address.now) }
{
    Ok(Value::String(text_of(alloc, address)?))
}

fn text_of(alloc: Global, address: &Address) -> Result<String, Memory>
    ensures { IfOk result (λ text. string_bytes text ≡ address_text address.now) }
{
    let mut text = Vec::new(alloc);
    address.write(alloc, &mut text)?;
    match String::from_utf8(text) {
        Ok(text) => Ok(text),
        Err(_) => unreachable!(),
    }
}

/// The nonce as a JSON string of 24 lower-case hexadecimal digits.
pub(crate) fn nonce_of(alloc: Global, nonce: &Nonce) -> Result<Value, Memory>
    ensures { IfOk result (λ v. view v ≡ nonce_value nonce.now) }
{
    Ok(Value::String(hex::encode(alloc, nonce.0)?))
}
