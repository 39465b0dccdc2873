//! Options that stand among the words of an older command.
ghost use Rattle.std.specs.Prelude.{◌≡◌, [], ◌∷◌, ◌++◌, IfOk, OnOk, map, option_map, slice_get, string_bytes};
ghost use Rattle.client_words.specs.Splits.{is_more, plain_in, values_in};

use pcp_base::Memory;
use std::alloc::Global;

/// Whether the word is such an option.
fn is_more(word: &str) -> bool
    ensures { result ≡ is_more word.now }
{
    word == "--nonce" || word == "--nonce-file" || word == "--filter" || word == "--third-party"
}

/// Appends the words without these options and their values.
pub(crate) fn push_plain(
    alloc: Global,
    words: &[String],
    plain: &mut Vec<String>,
) -> Result<(), Memory>
    ensures { OnOk result (map string_bytes plain.new.items
        ≡ map string_bytes plain.old.items ++ plain_in (map string_bytes words.now)) }
{
    let [word, rest @ ..] = words else {
        return Ok(());
    };
    if rest.is_empty() {
        return push_word(alloc, word, plain);
    }
    if is_more(word) {
        return push_plain(alloc, &rest[1..], plain);
    }
    push_word(alloc, word, plain)?;
    push_plain(alloc, rest, plain)
}

fn push_word(alloc: Global, word: &str, plain: &mut Vec<String>) -> Result<(), Memory>
    ensures { OnOk result (map string_bytes plain.new.items
        ≡ map string_bytes plain.old.items ++ word.now ∷ []) }
{
    plain.push(String::from_str(alloc, word)?)?;
    Ok(())
}

/// Appends the values of one of these options.
pub(crate) fn push_values<'a>(
    words: &'a [String],
    name: &str,
    values: &mut Vec<&'a str>,
) -> Result<(), Memory>
    ensures { OnOk result (map (λ s. s.now) values.new.items
        ≡ map (λ s. s.now) values.old.items ++ values_in name.now (map string_bytes words.now)) }
{
    let [word, rest @ ..] = words else {
        return Ok(());
    };
    let [value, behind @ ..] = rest else {
        return Ok(());
    };
    if !is_more(word) {
        return push_values(rest, name, values);
    }
    if word.as_str() == name {
        values.push(value.as_str())?;
    }
    push_values(behind, name, values)
}

/// The values of one of these options, in order.
pub(crate) fn values_in<'a>(
    alloc: Global,
    words: &'a [String],
    name: &str,
) -> Result<Vec<&'a str>, Memory>
    ensures { IfOk result (λ values. map (λ s. s.now) values.items
        ≡ values_in name.now (map string_bytes words.now)) }
{
    let mut values = Vec::new(alloc);
    push_values(words, name, &mut values)?;
    Ok(values)
}

/// The first of the texts.
pub(crate) fn first_of<'a>(texts: &[&'a str]) -> Option<&'a str>
    ensures { option_map (λ s. s.now) result ≡ slice_get (map (λ s. s.now) texts.now) 0 }
{
    texts.first().copied()
}
