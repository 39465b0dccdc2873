//! The words that name whom a client asks, where they are left to the program.
ghost use Rattle.std.specs.Prelude.{◌≡◌, [], ◌∷◌, ◌++◌, IfOk, OnOk, map, string_bytes};
ghost use Rattle.std.specs.List.{list_any};
ghost use Rattle.pcp_base.specs.AddressTexts.{address_text};
ghost use Rattle.program_texts.specs.Aims.{names, option_of, valued_of, with_aim};

use pcp_base::{Address, Memory};
use std::alloc::Global;
use std::net::Ipv4Addr;

// What an IPv4-mapped address begins with (RFC 6887, section 5).
const V4_FRONT: [u8; 12] = [0, 0, 0, 0, 0, 0, 0, 0, 0, 0, 255, 255];

/// An address that words may leave to the program.
#[derive(Clone, Copy, Debug, PartialEq, Eq)]
pub enum Aim {
    /// whom a client asks
    Server,
    /// the client's own one
    Own,
}

impl Aim {
    /// The option that names it.
    fn option(self) -> &'static str
        ensures { result.now ≡ option_of self }
    {
        match self {
            Aim::Server => "--server",
            Aim::Own => "--own",
        }
    }

    /// How a word begins that has the option and its value.
    fn valued(self) -> &'static [u8]
        ensures { result.now ≡ valued_of self }
    {
        match self {
            Aim::Server => b"--server=",
            Aim::Own => b"--own=",
        }
    }

    /// Whether a word names it.
    fn names(self, word: &str) -> bool
        ensures { result ≡ names self word.now }
    {
        word == self.option() || word.as_bytes().starts_with(self.valued())
    }
}

/// Whether some word names it.
pub fn is_aimed(aim: Aim, words: &[String]) -> bool
    ensures { result ≡ list_any (names aim) (map string_bytes words.now) }
{
    let [word, rest @ ..] = words else {
        return false;
    };
    aim.names(word.as_str()) || is_aimed(aim, rest)
}

/// The words with the option and this address behind the command's name; just as they are where a word
/// behind that names the option, or there is no address. The one error is want of memory.
pub fn with_aim(
    alloc: Global,
    aim: Aim,
    address: Option<Address>,
    words: &[String],
) -> Result<Vec<String>, Memory>
    ensures { IfOk result (λ made.
        map string_bytes made.items ≡ with_aim aim address (map string_bytes words.now)) }
{
    let mut made = Vec::new(alloc);
    let [command, rest @ ..] = words else {
        return Ok(made);
    };
    made.push(String::from_str(alloc, command.as_str())?)?;
    if let Some(address) = address
        && !is_aimed(aim, rest)
    {
        made.push(String::from_str(alloc, aim.option())?)?;
        made.push(text_of(alloc, address)?)?;
    }
    push_all(alloc, &mut made, rest)?;
    Ok(made)
}

/// The text of an address.
fn text_of(alloc: Global, address: Address) -> Result<String, Memory>
    ensures { IfOk result (λ text. string_bytes text ≡ address_text address) }
{
    if address.0.starts_with(&V4_FRONT) {
        let [.., a, b, c, d] = address.0;
        Ok(format!(in alloc; "{}", Ipv4Addr::new(a, b, c, d))?)
    } else {
        Ok(hex::encode(alloc, address.0)?)
    }
}

/// Adds copies of these words.
fn push_all(alloc: Global, made: &mut Vec<String>, words: &[String]) -> Result<(), Memory>
    ensures { OnOk result (map string_bytes made.new.items
        ≡ map string_bytes made.old.items ++ map string_bytes words.now) }
{
    let [word, rest @ ..] = words else {
        return Ok(());
    };
    push_copy(alloc, made, word)?;
    push_all(alloc, made, rest)
}

fn push_copy(alloc: Global, made: &mut Vec<String>, word: &str) -> Result<(), Memory>
    ensures { OnOk result (map string_bytes made.new.items
        ≡ map string_bytes made.old.items ++ word.now ∷ []) }
{
    made.push(String::from_str(alloc, word)?)?;
    Ok(())
}
