//! The line that a command prints for a response, and the status of its call then.
ghost use Rattle.std.specs.Prelude.{◌≡◌, ◌++◌, IfOk, OnOk, codes};
ghost use Rattle.client_runs.specs.Lines.{answer_line, deletion_text, does, granted_text, grants, is_success, line_of, refusal_text, size_field, spaced, status_of, success_text, text_of};

use client_commands::ClientCommand;
use client_core::set_size;
use client_words::ClientAsk;
use pcp_base::Memory;
use pcp_codec::{Body, Common};
use pcp_options::Response;
use std::alloc::Global;
use tool_commands::ToolStatus;

/// The status of the call once the line is printed.
pub(crate) fn status_of(ask: &ClientAsk, response: &Response) -> ToolStatus
    ensures { result ≡ status_of ask.now response.now }
{
    if does(ask, response) {
        ToolStatus::Done
    } else {
        ToolStatus::Refused(response.code)
    }
}

/// Whether a response does what was asked.
fn does(ask: &ClientAsk, response: &Response) -> bool
    ensures { result ≡ does ask.now response.now }
{
    if ask.deletes {
        is_success(response)
    } else {
        grants(&ask.command, response)
    }
}

/// The line for what was asked, with its line feed.
pub(crate) fn answer_line(
    alloc: Global,
    ask: &ClientAsk,
    response: &Response,
) -> Result<Vec<u8>, Memory>
    ensures { IfOk result (λ line. line.items ≡ answer_line ask.now response.now) }
{
    let mut line = Vec::new(alloc);
    if ask.deletes {
        push_deletion(alloc, &mut line, response)?;
        line.push(b'\n')?;
    } else {
        push_line(alloc, &mut line, &ask.command, response)?;
    }
    Ok(line)
}

/// Appends the line that a command prints for a response, with its line feed: `mapped ADDRESS PORT LIFETIME
/// EPOCH`, and the size behind it where more ports than one were asked for; `epoch EPOCH`; or `refused CODE
/// SECONDS`.
pub fn push_line(
    alloc: Global,
    out: &mut Vec<u8>,
    command: &ClientCommand,
    response: &Response,
) -> Result<(), Memory>
    ensures { OnOk result (out.new.items ≡ out.old.items ++ line_of command.now response.now) }
{
    push_text(alloc, out, command, response)?;
    out.push(b'\n')?;
    Ok(())
}

fn push_deletion(alloc: Global, out: &mut Vec<u8>, response: &Response) -> Result<(), Memory>
    ensures { OnOk result (out.new.items ≡ out.old.items ++ deletion_text response.now) }
{
    if !is_success(response) {
        return push_refusal(alloc, out, response);
    }
    out.extend_from_slice(b"deleted")?;
    push_number(alloc, out, response.epoch)
}

fn is_success(response: &Response) -> bool
    ensures { result ≡ is_success response.now }
{
    response.code.number() == 0
}

/// Whether a response grants what was asked: a success of MAP and PEER with lifetime 0 doesn't.
fn grants(command: &ClientCommand, response: &Response) -> bool
    ensures { result ≡ grants command.now response.now }
{
    match command {
        ClientCommand::Map(_target, _wanted) => is_success(response) && response.lifetime != 0,
        ClientCommand::Peer(_target, _wanted) => is_success(response) && response.lifetime != 0,
        ClientCommand::Announce(_target) => is_success(response),
    }
}

fn push_text(
    alloc: Global,
    out: &mut Vec<u8>,
    command: &ClientCommand,
    response: &Response,
) -> Result<(), Memory>
    ensures { OnOk result (out.new.items ≡ out.old.items ++ text_of command.now response.now) }
{
    if !grants(command, response) {
        return push_refusal(alloc, out, response);
    }
    push_success(alloc, out, response)?;
    push_size(alloc, out, command, response)
}

fn push_refusal(alloc: Global, out: &mut Vec<u8>, response: &Response) -> Result<(), Memory>
    ensures { OnOk result (out.new.items ≡ out.old.items ++ refusal_text response.now) }
{
    out.extend_from_slice(b"refused")?;
    push_number(alloc, out, u32::from(response.code.number()))?;
    push_number(alloc, out, response.lifetime)
}

fn push_success(alloc: Global, out: &mut Vec<u8>, response: &Response) -> Result<(), Memory>
    ensures { OnOk result (out.new.items
        ≡ out.old.items ++ success_text response.now response.now.body) }
{
    match &response.body {
        Body::Announce => push_epoch(alloc, out, response),
        Body::Map(common) => push_granted(alloc, out, response, common),
        Body::Peer { common, .. } => push_granted(alloc, out, response, common),
    }
}

fn push_epoch(alloc: Global, out: &mut Vec<u8>, response: &Response) -> Result<(), Memory>
    ensures { OnOk result (out.new.items
        ≡ out.old.items ++ (codes "epoch" ++ spaced response.now.epoch)) }
{
    out.extend_from_slice(b"epoch")?;
    push_number(alloc, out, response.epoch)
}

fn push_granted(
    alloc: Global,
    out: &mut Vec<u8>,
    response: &Response,
    common: &Common,
) -> Result<(), Memory>
    ensures { OnOk result (out.new.items
        ≡ out.old.items ++ granted_text response.now common.now) }
{
    out.extend_from_slice(b"mapped ")?;
    common.address.write(alloc, out)?;
    push_number(alloc, out, u32::from(common.external))?;
    push_number(alloc, out, response.lifetime)?;
    push_number(alloc, out, response.epoch)
}

/// The size, where more ports than one were asked for.
fn push_size(
    alloc: Global,
    out: &mut Vec<u8>,
    command: &ClientCommand,
    response: &Response,
) -> Result<(), Memory>
    ensures { OnOk result (out.new.items
        ≡ out.old.items ++ size_field command.now response.now) }
{
    match command {
        ClientCommand::Map(_target, wanted) => {
            if wanted.size <= 1 {
                return Ok(());
            }
            push_number(alloc, out, u32::from(set_size(response.items.items())))
        }
        ClientCommand::Peer(_target, _wanted) => Ok(()),
        ClientCommand::Announce(_target) => Ok(()),
    }
}

/// A number after a space.
fn push_number(alloc: Global, out: &mut Vec<u8>, number: u32) -> Result<(), Memory>
    ensures { OnOk result (out.new.items ≡ out.old.items ++ spaced number) }
{
    let text = format!(in alloc; " {number}")?;
    out.extend_from_slice(text.as_bytes())?;
    Ok(())
}
