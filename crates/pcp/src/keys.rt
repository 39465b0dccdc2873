//! The key that a relay has in a file.
use crate::tools::tell_now;
use pcp_base::Memory;
use program_texts::{key_cause, path_cause, read_short_file};
use relay_words::key_file_of;
use tool_commands::ToolStatus;

/// The text of some key, by which words are tried before a file is read.
pub(crate) const ANY_KEY: &str = "0000000000000000000000000000000000000000000000000000000000000000";

/// The text of the key in the file that the words name; none where they name none. Else how the command ends,
/// which is told where people ask.
pub(crate) fn filed_key(
    rt: &HostRuntime,
    words: &[String],
    explains: bool,
) -> Result<Result<Option<String>, ToolStatus>, Memory> {
    let alloc = rt.alloc();
    let Some(path) = key_file_of(alloc, words)? else {
        return Ok(Ok(None));
    };
    let (status, cause) = match read_short_file(rt, path) {
        Ok(octets) => match key_text(octets.as_slice()) {
            Some(text) => return Ok(Ok(Some(String::from_str(alloc, text)?))),
            None => (ToolStatus::WordsRefused, key_cause(alloc, path)?),
        },
        Err(error) => (ToolStatus::LinkFault, path_cause(alloc, path, error)?),
    };
    tell_now(rt, &[cause], explains);
    Ok(Err(status))
}

/// The key that a file's octets write: 64 hexadecimal digits, and one line feed at most behind them.
fn key_text(octets: &[u8]) -> Option<&str> {
    let digits = match octets {
        [digits @ .., b'\n'] => digits,
        digits => digits,
    };
    if digits.len() != 64 || !digits.iter().all(|digit| digit.is_ascii_hexdigit()) {
        return None;
    }
    std::str::from_utf8(digits).ok()
}
