//! What the lines of a script put out.
ghost use Rattle.std.specs.Prelude.{◌≡◌, ◌++◌, IfOk, OnOk, OnErr};
ghost use Rattle.pcp_script.specs.Results.{hex_field, lost_line, own_line, owner_line, owners_lines, reply_line, result_text};

use pcp_base::{Datagram, Endpoint, Memory, Owner, OwnerList};
use std::alloc::{AllocError, Global};

/// What a line of a script is answered.
#[derive(Debug, Drop)]
pub enum LineResult {
    /// The datagram gets no reply.
    Silent,
    /// The reply to a datagram, with the peer that it goes to.
    Reply(Datagram),
    /// The owner of the external port that was asked for, if it has one.
    Owner(Option<Endpoint>),
    /// How many leases were lost.
    Lost(u32),
    /// The owned ports of a shard, in the order in which they are told.
    Owners(OwnerList),
}

/// Appends the lines that tell the result, each with its line feed; nothing where no memory was found.
pub fn write_result(alloc: Global, out: &mut Vec<u8>, told: &LineResult) -> Result<(), Memory>
    ensures ok { OnOk result (out.new.items ≡ out.old.items ++ result_text told.now) }
    ensures err { OnErr result (out.new.items ≡ out.old.items) }
{
    let text = text_of(alloc, told)?;
    out.extend_from_slice(&text)?;
    Ok(())
}

fn text_of(alloc: Global, told: &LineResult) -> Result<Vec<u8>, Memory>
    ensures { IfOk result (λ text. text.items ≡ result_text told.now) }
{
    let mut text = Vec::new(alloc);
    match told {
        LineResult::Silent => text.extend_from_slice(b"silent\n")?,
        LineResult::Reply(to) => push_reply(alloc, &mut text, to)?,
        LineResult::Owner(None) => text.extend_from_slice(b"none\n")?,
        LineResult::Owner(Some(endpoint)) => push_owner(alloc, &mut text, endpoint)?,
        LineResult::Lost(count) => push_lost(alloc, &mut text, *count)?,
        LineResult::Owners(owners) => push_owners(alloc, &mut text, owners.items())?,
    }
    Ok(text)
}

// Appends the line that tells a reply.
fn push_reply(alloc: Global, out: &mut Vec<u8>, to: &Datagram) -> Result<(), Memory>
    ensures { OnOk result (out.new.items ≡ out.old.items ++ reply_line to.now) }
{
    let port = format!(in alloc; " {} ", to.port)?;
    out.extend_from_slice(b"reply ")?;
    to.peer.write(alloc, out)?;
    out.extend_from_slice(port.as_bytes())?;
    push_hex(alloc, out, to.octets.items())?;
    out.push(b'\n')?;
    Ok(())
}

// Appends octets as a script has them.
fn push_hex(alloc: Global, out: &mut Vec<u8>, octets: &[u8]) -> Result<(), AllocError>
    ensures { OnOk result (out.new.items ≡ out.old.items ++ hex_field octets.now) }
{
    if octets.is_empty() {
        return out.extend_from_slice(b"-");
    }
    let digits = hex::encode(alloc, octets)?;
    out.extend_from_slice(digits.as_bytes())
}

// Appends the line that tells who owns a port.
fn push_owner(alloc: Global, out: &mut Vec<u8>, owner: &Endpoint) -> Result<(), Memory>
    ensures { OnOk result (out.new.items ≡ out.old.items ++ owner_line owner.now) }
{
    let numbers = format!(in alloc; " {} {}\n", owner.protocol.number(), owner.port)?;
    out.extend_from_slice(b"owner ")?;
    owner.address.write(alloc, out)?;
    out.extend_from_slice(numbers.as_bytes())?;
    Ok(())
}

// Appends the line that tells how many leases were lost.
fn push_lost(alloc: Global, out: &mut Vec<u8>, count: u32) -> Result<(), AllocError>
    ensures { OnOk result (out.new.items ≡ out.old.items ++ lost_line count) }
{
    let line = format!(in alloc; "lost {count}\n")?;
    out.extend_from_slice(line.as_bytes())
}

// Appends the lines that tell all owned ports, and the line that counts them.
fn push_owners(alloc: Global, out: &mut Vec<u8>, owners: &[Owner]) -> Result<(), Memory>
    ensures { OnOk result (out.new.items ≡ out.old.items ++ owners_lines owners.now) }
{
    for owner in owners {
        push_own(alloc, out, owner)?;
    }
    let count = format!(in alloc; "owners {}\n", owners.len())?;
    out.extend_from_slice(count.as_bytes())?;
    Ok(())
}

// Appends the line that tells one owned port.
fn push_own(alloc: Global, out: &mut Vec<u8>, owner: &Owner) -> Result<(), Memory>
    ensures { OnOk result (out.new.items ≡ out.old.items ++ own_line owner.now) }
{
    let front = format!(in alloc; "own {} {} ", owner.protocol.number(), owner.external)?;
    let port = format!(in alloc; " {}\n", owner.endpoint.port)?;
    out.extend_from_slice(front.as_bytes())?;
    owner.endpoint.address.write(alloc, out)?;
    out.extend_from_slice(port.as_bytes())?;
    Ok(())
}
