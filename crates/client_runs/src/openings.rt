//! What a run begins with: its nonce, and a client that wants a mapping.
ghost use Rattle.std.specs.Prelude.{◌≡◌, ◌*◌, ◌^◌, ◌<◌, [], ◌∷◌, None, IfOk, IfErr, OnErr};
ghost use Rattle.pcp_io.specs.Faults.{HasRisen};
ghost use Rattle.client_core.specs.Wants.{CanBeWanted};
ghost use Rattle.client_runs.specs.declared.tries.Unanswered.TheVariants as Reasons;
ghost use Rattle.client_runs.specs.Askers.{ending_from, wanting_from};
ghost use Rattle.client_runs.specs.Links.{WordsDrawn};
ghost use Rattle.client_runs.specs.Openings.{HasNonce, LacksWord};

use crate::asking::nonce_of;
use crate::tries::Unanswered;
use client_commands::Target;
use client_core::Client;
use pcp_base::{Address, Ask, Nonce};
use random_words::Entropy;
use std::alloc::Global;

/// A word of the nonce.
fn draw<E: Entropy>(entropy: &mut E) -> Result<u32, Unanswered>
    ensures word { IfOk result (λ word. WordsDrawn (word ∷ [])
        (record { words = E.words entropy.old; faults = E.faults entropy.old })
        (record { words = E.words entropy.new; faults = E.faults entropy.new })) }
    ensures none { OnErr result (WordsDrawn []
        (record { words = E.words entropy.old; faults = E.faults entropy.old })
        (record { words = E.words entropy.new; faults = E.faults entropy.new })) }
    ensures fault { OnErr result (HasRisen (E.faults entropy.old) (E.faults entropy.new)) }
    ensures reason { IfErr result (λ why. why ≡ Reasons.EntropyFault) }
{
    match entropy.word() {
        Ok(word) => Ok(word),
        Err(_) => Err(Unanswered::EntropyFault),
    }
}

/// A nonce of three words.
fn draw_nonce<E: Entropy>(entropy: &mut E) -> Result<Nonce, Unanswered>
    ensures nonce { IfOk result (HasNonce None
        (record { words = E.words entropy.old; faults = E.faults entropy.old })
        (record { words = E.words entropy.new; faults = E.faults entropy.new })) }
    ensures part { OnErr result (LacksWord
        (record { words = E.words entropy.old; faults = E.faults entropy.old })
        (record { words = E.words entropy.new; faults = E.faults entropy.new })) }
    ensures reason { IfErr result (λ why. why ≡ Reasons.EntropyFault) }
{
    let first = draw(entropy)?;
    let second = draw(entropy)?;
    let third = draw(entropy)?;
    Ok(nonce_of(first, second, third))
}

/// The nonce that is given, or one of three words.
pub fn nonce_by<E: Entropy>(given: Option<Nonce>, entropy: &mut E) -> Result<Nonce, Unanswered>
    ensures nonce { IfOk result (HasNonce given
        (record { words = E.words entropy.old; faults = E.faults entropy.old })
        (record { words = E.words entropy.new; faults = E.faults entropy.new })) }
    ensures part { OnErr result (LacksWord
        (record { words = E.words entropy.old; faults = E.faults entropy.old })
        (record { words = E.words entropy.new; faults = E.faults entropy.new })) }
    ensures reason { IfErr result (λ why. why ≡ Reasons.EntropyFault) }
{
    match given {
        Some(nonce) => Ok(nonce),
        None => draw_nonce(entropy),
    }
}

/// A client that wants this from a time on, for a third host or for its own.
pub fn wanting_from(
    alloc: Global,
    target: &Target,
    third: Option<Address>,
    wanted: Ask,
    now_ms: u64,
) -> Result<Client, Unanswered>
    requires wanted { CanBeWanted wanted }
    requires time { now_ms < 1000 * 2 ^ 40 }
    ensures client { IfOk result
        (λ client. client ≡ wanting_from target.now third wanted now_ms) }
    ensures reason { IfErr result (λ why. why ≡ Reasons.Memory) }
{
    let mut client = Client::new(alloc, target.server, target.own)?;
    match client.want(alloc, third, wanted, now_ms) {
        Ok(_) => Ok(client),
        Err(_) => Err(Unanswered::Memory),
    }
}

/// A client that has the mapping deleted that it would want so.
pub(crate) fn ending_from(
    alloc: Global,
    target: &Target,
    third: Option<Address>,
    wanted: Ask,
    now_ms: u64,
) -> Result<Client, Unanswered>
    requires wanted { CanBeWanted wanted }
    requires time { now_ms < 1000 * 2 ^ 40 }
    ensures client { IfOk result
        (λ client. client ≡ ending_from target.now third wanted now_ms) }
    ensures reason { IfErr result (λ why. why ≡ Reasons.Memory) }
{
    let mut client = wanting_from(alloc, target, third, wanted, now_ms)?;
    client.end(0, now_ms);
    Ok(client)
}
