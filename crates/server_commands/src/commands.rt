//! The words of commands.
ghost use Rattle.std.specs.Prelude.{◌≡◌, ℕ, Some, IfSome, IfNone, map, string_bytes};
ghost use Rattle.std.specs.Bool.{OnFalse, OnTrue};
ghost use Rattle.server_commands.specs.Words.{IsCommand, IsDumpWords, IsLoadWords, IsMomentText, IsPlanText, IsPlayWords};
ghost use Rattle.server_commands.specs.declared.commands.Command.{Command};
ghost use Rattle.server_commands.specs.declared.commands.LoadPlan.{LoadPlan};

use pcp_base::{Moment, read_number};

/// The most requests of a load.
pub const MOST_REQUESTS: u64 = 1_000_000;

// The last moment.
const LAST: u64 = (1 << 40) - 1;

/// A command of the server that waits for nobody.
#[derive(Clone, Copy, Debug, PartialEq, Eq)]
pub enum Command {
    /// `play CONFIG SCRIPT JOURNALS START`: the journals are opened at this moment, and the script is
    /// answered.
    Play(Moment),
    /// `dump CONFIG JOURNALS`: what the journals hold is told.
    Dump,
    /// `load CONFIG JOURNALS START NUMBER COUNT`: generated requests are served.
    Load(LoadPlan),
}

/// The requests that a `load` serves.
#[derive(Clone, Copy, Debug, PartialEq, Eq)]
pub struct LoadPlan {
    /// The moment at which the journals are opened, and that of the first request.
    pub start: Moment,
    /// The number that makes the requests.
    pub number: u64,
    /// How many, at most [`MOST_REQUESTS`].
    pub count: u32,
}

/// The command that the words are; none where they are no command.
pub fn command_of(words: &[String]) -> Option<Command>
    ensures value { IfSome result (IsCommand (map string_bytes words.now)) }
    ensures only { (command : Command) → IsCommand (map string_bytes words.now) command
        → result ≡ Some command }
{
    if let Some(start) = play_of(words) {
        return Some(Command::Play(start));
    }
    if is_dump(words) {
        return Some(Command::Dump);
    }
    if let Some(plan) = load_of(words) {
        return Some(Command::Load(plan));
    }
    None
}

// The START of a `play`.
fn play_of(words: &[String]) -> Option<Moment>
    ensures value { IfSome result (IsPlayWords (map string_bytes words.now)) }
    ensures none { IfNone result
        ((start : ℕ) → ¬ (IsPlayWords (map string_bytes words.now) start)) }
{
    let [play, config, script, journals, start] = words else {
        return None;
    };
    if play.as_str() != "play" || config.is_empty() || script.is_empty() || journals.is_empty() {
        return None;
    }
    read_moment(start.as_bytes())
}

// Whether the words are a `dump`.
fn is_dump(words: &[String]) -> bool
    ensures yes { OnTrue result (IsDumpWords (map string_bytes words.now)) }
    ensures no { OnFalse result (¬ (IsDumpWords (map string_bytes words.now))) }
{
    let [dump, config, journals] = words else {
        return false;
    };
    if dump.as_str() != "dump" || config.is_empty() || journals.is_empty() {
        return false;
    }
    true
}

// The requests of a `load`.
fn load_of(words: &[String]) -> Option<LoadPlan>
    ensures value { IfSome result (IsLoadWords (map string_bytes words.now)) }
    ensures none { IfNone result
        ((plan : LoadPlan) → ¬ (IsLoadWords (map string_bytes words.now) plan)) }
{
    let [load, config, journals, start, number, count] = words else {
        return None;
    };
    if load.as_str() != "load" || config.is_empty() || journals.is_empty() {
        return None;
    }
    plan_of(start.as_bytes(), number.as_bytes(), count.as_bytes())
}

fn plan_of(start: &[u8], number: &[u8], count: &[u8]) -> Option<LoadPlan>
    ensures value { IfSome result (IsPlanText start.now number.now count.now) }
    ensures none { IfNone result
        ((plan : LoadPlan) → ¬ (IsPlanText start.now number.now count.now plan)) }
{
    let start = read_moment(start)?;
    let number = read_number(number, u64::MAX)?;
    let count = read_number(count, MOST_REQUESTS)?;
    Some(LoadPlan {
        start,
        number,
        count: count as u32,
    })
}

// The moment that the text writes in decimal, without a leading zero.
fn read_moment(text: &[u8]) -> Option<Moment>
    ensures value { IfSome result (IsMomentText text.now) }
    ensures none { IfNone result ((moment : ℕ) → ¬ (IsMomentText text.now moment)) }
{
    Moment::of(read_number(text, LAST)?)
}
