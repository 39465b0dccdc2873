//! The nonce of a mapping in text.
ghost use Rattle.std.specs.Prelude.{◌≡◌, drop, IfOk, map, option_map, slice_get, string_bytes, codes};
ghost use Rattle.client_words.specs.Nonces.{nonce_given, nonce_of_digits, nonce_of_text, nonce_text, without_end};
ghost use Rattle.client_words.specs.Splits.{values_in};

use crate::splits::values_in;
use hex::FromHex;
use pcp_base::{Memory, Nonce};
use std::alloc::Global;

fn nonce_of_digits(text: &[u8]) -> Option<Nonce>
    ensures { result ≡ nonce_of_digits text.now }
{
    match <[u8; 12] as FromHex>::from_hex(text) {
        Ok(octets) => Some(Nonce(octets)),
        Err(_error) => None,
    }
}

fn without_end(text: &[u8]) -> &[u8]
    ensures { result.now ≡ without_end text.now }
{
    if text.len() == 25 && text[24] == b'\n' {
        &text[..24]
    } else {
        text
    }
}

/// The nonce that the text of a file writes: exactly 24 hexadecimal digits, of either case, and one line
/// feed at most behind them.
pub fn read_nonce(text: &[u8]) -> Option<Nonce>
    ensures { result ≡ nonce_of_text text.now }
{
    nonce_of_digits(without_end(text))
}

/// The text of a nonce for a file: 24 lower-case hexadecimal digits, and a line feed.
pub fn write_nonce(alloc: Global, nonce: &Nonce) -> Result<Vec<u8>, Memory>
    ensures { IfOk result (λ text. text.items ≡ nonce_text nonce.now) }
{
    let digits = hex::encode(alloc, nonce.0)?;
    let mut text = Vec::new(alloc);
    text.extend_from_slice(digits.as_bytes())?;
    text.push(b'\n')?;
    Ok(text)
}

/// The file that the words name for the nonce, whichever command they are: the value of the first
/// `--nonce-file`.
pub fn nonce_file_of<'a>(alloc: Global, words: &'a [String]) -> Result<Option<&'a str>, Memory>
    ensures { IfOk result (λ file. option_map (λ s. s.now) file
        ≡ slice_get (values_in (codes "--nonce-file") (drop 1 (map string_bytes words.now))) 0) }
{
    let [_name, rest @ ..] = words else {
        return Ok(None);
    };
    let files = values_in(alloc, rest, "--nonce-file")?;
    Ok(files.first().copied())
}

/// The nonce that is given by its digits, or by the text of a file; in it none where neither is.
pub(crate) fn nonce_given(
    digits: &[&str],
    files: &[&str],
    filed: Option<&[u8]>,
) -> Option<Option<Nonce>>
    ensures { result ≡ nonce_given (map (λ s. s.now) digits.now) (map (λ s. s.now) files.now)
        (option_map (λ s. s.now) filed.entry) }
{
    if digits.len() + files.len() > 1 {
        return None;
    }
    if let Some(text) = digits.first() {
        return Some(Some(nonce_of_digits(text.as_bytes())?));
    }
    if !files.is_empty() {
        return Some(Some(read_nonce(filed?)?));
    }
    Some(None)
}
