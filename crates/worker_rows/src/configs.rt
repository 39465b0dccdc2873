//! Configurations of some external addresses.
ghost use Rattle.std.specs.Prelude.{IfOk};
ghost use Rattle.pcp_base.specs.Configs.{IsConfig};

use pcp_base::{Config, Memory};
use pcp_config::read_config;
use std::alloc::Global;

/// Text before and behind a number of two digits.
fn push_numbered(text: &mut Vec<u8>, front: &[u8], number: u8, back: &[u8]) -> Result<(), Memory> {
    text.extend_from_slice(front)?;
    text.push(b'0' + number / 10 % 10)?;
    text.push(b'0' + number % 10)?;
    text.extend_from_slice(back)?;
    Ok(())
}

/// 192.0.2.100 serves the hosts of 10.100.0.0/16, 192.0.2.101 those of 10.101.0.0/16, and so on.
fn text_of(alloc: Global, count: u8) -> Result<Vec<u8>, Memory> {
    let mut text = Vec::new(alloc);
    for i in 0..count {
        let front = b"[[external]]\naddress = \"192.0.2.1".as_slice();
        push_numbered(
            &mut text,
            front,
            i,
            b"\"\nlow = 1024\nhigh = 65535\n".as_slice(),
        )?;
        let front = b"[[subscriber]]\nprefix = \"10.1".as_slice();
        push_numbered(
            &mut text,
            front,
            i,
            b".0.0/16\"\nexternal = \"192.0.2.1".as_slice(),
        )?;
        push_numbered(&mut text, b"".as_slice(), i, b"\"\n".as_slice())?;
    }
    Ok(text)
}

/// So many external addresses, each with a /16 of hosts.
pub(crate) fn config_of(alloc: Global, count: u8) -> Result<Config, Memory>
    ensures { IfOk result IsConfig }
{
    let text = text_of(alloc, count)?;
    match read_config(alloc, &text) {
        Ok(config) => Ok(config),
        Err(_) => Err(Memory),
    }
}
