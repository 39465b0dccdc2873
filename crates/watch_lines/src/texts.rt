//! Values as lines.
ghost use Rattle.std.specs.Prelude.{◌≡◌, [], ◌∷◌, ◌++◌, false, IfOk};
ghost use Rattle.serde_json.specs.View.{view};
ghost use Rattle.serde_json.specs.Written.{compact_text, has_float};

use pcp_base::Memory;
use serde_json::Value;
use std::alloc::Global;

/// The value without spaces, and a line feed.
pub(crate) fn text_of(alloc: Global, value: Value) -> Result<Vec<u8>, Memory>
    requires { has_float (view value) ≡ false }
    ensures { IfOk result (λ line. line.items ≡ compact_text (view value) ++ 10 ∷ []) }
{
    let mut line = value.to_string(alloc)?.into_bytes();
    line.push(b'\n')?;
    Ok(line)
}
