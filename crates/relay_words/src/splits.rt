//! Options among the words of a relay.
ghost use Rattle.std.specs.Prelude.{◌≡◌, ◌∷◌, ◌++◌, ◌||◌, ◌&&◌, [], IfOk, OnOk, map, option_map, slice_get, string_bytes};
ghost use Rattle.relay_words.specs.Splits.{is_inner, is_more, plain_in, values_in};

use pcp_base::Memory;
use std::alloc::Global;

/// Whether the word is an option that no older command has.
fn is_more(word: &str) -> bool
    ensures { result ≡ is_more word.now }
{
    word == "--third-party" || word == "--rate" || word == "--key-file"
}

fn is_inner(word: &str) -> bool
    ensures { result ≡ is_inner word.now }
{
    word == "--inner"
}

/// Whether the word is an option that an older command hasn't; `seen` is whether `--inner` came.
fn is_left_out(word: &str, seen: bool) -> bool
    ensures { result ≡ (is_more word.now || (seen && is_inner word.now)) }
{
    is_more(word) || (seen && is_inner(word))
}

/// Appends the words without these options and their values, and without `--inner` behind the first one.
pub(crate) fn push_plain(
    alloc: Global,
    words: &[String],
    seen: bool,
    plain: &mut Vec<String>,
) -> Result<(), Memory>
    ensures { OnOk result (map string_bytes plain.new.items
        ≡ map string_bytes plain.old.items ++ plain_in seen (map string_bytes words.now)) }
{
    let [word, rest @ ..] = words else {
        return Ok(());
    };
    let [value, behind @ ..] = rest else {
        return push_word(alloc, word, plain);
    };
    if is_left_out(word, seen) {
        return push_plain(alloc, behind, seen, plain);
    }
    push_word(alloc, word, plain)?;
    if is_inner(word) {
        push_word(alloc, value, plain)?;
        return push_plain(alloc, behind, true, plain);
    }
    push_plain(alloc, rest, seen, plain)
}

pub(crate) fn push_word(alloc: Global, word: &str, plain: &mut Vec<String>) -> Result<(), Memory>
    ensures { OnOk result (map string_bytes plain.new.items
        ≡ map string_bytes plain.old.items ++ word.now ∷ []) }
{
    plain.push(String::from_str(alloc, word)?)?;
    Ok(())
}

/// Appends the values of one of these options.
fn push_values<'a>(words: &'a [String], name: &str, values: &mut Vec<&'a str>) -> Result<(), Memory>
    ensures { OnOk result (map (λ s. s.now) values.new.items
        ≡ map (λ s. s.now) values.old.items ++ values_in name.now (map string_bytes words.now)) }
{
    let [word, rest @ ..] = words else {
        return Ok(());
    };
    let [value, behind @ ..] = rest else {
        return Ok(());
    };
    if !is_more(word) && !is_inner(word) {
        return push_values(rest, name, values);
    }
    if word.as_str() == name {
        values.push(value.as_str())?;
    }
    push_values(behind, name, values)
}

/// The values of one of these options, in order.
pub(crate) fn values_in<'a>(
    alloc: Global,
    words: &'a [String],
    name: &str,
) -> Result<Vec<&'a str>, Memory>
    ensures { IfOk result (λ values. map (λ s. s.now) values.items
        ≡ values_in name.now (map string_bytes words.now)) }
{
    let mut values = Vec::new(alloc);
    push_values(words, name, &mut values)?;
    Ok(values)
}

/// The first of the texts.
pub(crate) fn first_of<'a>(texts: &[&'a str]) -> Option<&'a str>
    ensures { option_map (λ s. s.now) result ≡ slice_get (map (λ s. s.now) texts.now) 0 }
{
    texts.first().copied()
}
