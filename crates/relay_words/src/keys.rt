//! The key of a relay in a file.
ghost use Rattle.std.specs.Prelude.{◌≡◌, codes, drop, IfOk, map, option_map, slice_get, string_bytes};
ghost use Rattle.relay_words.specs.Keys.{IsKeyed, key_words};
ghost use Rattle.relay_words.specs.Splits.{values_in};

use crate::splits::{push_word, values_in};
use pcp_base::Memory;
use std::alloc::Global;

/// The file that the words name for the key, whichever command they are: the value of the first
/// `--key-file`.
pub fn key_file_of<'a>(alloc: Global, words: &'a [String]) -> Result<Option<&'a str>, Memory>
    ensures { IfOk result (λ file. option_map (λ s. s.now) file
        ≡ slice_get (values_in (codes "--key-file") (drop 1 (map string_bytes words.now))) 0) }
{
    let [_name, rest @ ..] = words else {
        return Ok(None);
    };
    let files = values_in(alloc, rest, "--key-file")?;
    Ok(files.first().copied())
}

/// Appends the key that a file has, as an older command has it; false where two files are named, or the
/// one that is named has no text.
pub(crate) fn push_key(
    alloc: Global,
    rest: &[String],
    filed: Option<&str>,
    older: &mut Vec<String>,
) -> Result<bool, Memory>
    ensures { IfOk result (λ there. IsKeyed (key_words
        (values_in (codes "--key-file") (map string_bytes rest.now))
        (option_map (λ s. s.now) filed.entry))
        (map string_bytes older.old.items) (map string_bytes older.new.items) there) }
{
    let files = values_in(alloc, rest, "--key-file")?;
    if files.is_empty() {
        return Ok(true);
    }
    if files.len() > 1 {
        return Ok(false);
    }
    let Some(text) = filed else {
        return Ok(false);
    };
    push_word(alloc, "--key", older)?;
    push_word(alloc, text, older)?;
    Ok(true)
}
