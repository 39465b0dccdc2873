//! Readings that tell of no leases.
ghost use Rattle.std.specs.Prelude.{◌≡◌, IfOk};
ghost use Rattle.serde_json.specs.View.{view};
ghost use Rattle.watch_lines.specs.Lines.{doubt_line, doubt_value, doubt_word};

use crate::members::place_of;
use crate::settings::Setting;
use crate::texts::text_of;
use pcp_base::Memory;
use serde_json::{Value, put};
use std::alloc::Global;

/// Why a reading tells of no leases.
#[derive(Clone, Copy, Debug, PartialEq, Eq)]
pub enum Doubt {
    /// Both sides are closed.
    Blank,
    /// An open side isn't in the grammar.
    Damaged,
    /// The sides changed at each look.
    Unsettled,
}

/// Its word in a line.
fn word_of(doubt: Doubt) -> &'static str
    ensures { result.now ≡ doubt_word doubt }
{
    match doubt {
        Doubt::Blank => "blank",
        Doubt::Damaged => "damaged",
        Doubt::Unsettled => "unsettled",
    }
}

fn value_of(alloc: Global, setting: &Setting, doubt: Doubt) -> Result<Value, Memory>
    ensures { IfOk result (λ v. view v ≡ doubt_value setting.now doubt) }
{
    let mut object = place_of(alloc, setting, word_of(doubt))?;
    put(
        &mut object,
        alloc,
        "moment",
        Value::from(setting.moment.get()),
    )?;
    Ok(Value::Object(object))
}

/// The line of a reading that tells of no leases.
pub fn doubt_line_of(alloc: Global, setting: &Setting, doubt: Doubt) -> Result<Vec<u8>, Memory>
    ensures { IfOk result (λ line. line.items ≡ doubt_line setting.now doubt) }
{
    let value = value_of(alloc, setting, doubt)?;
    text_of(alloc, value)
}
