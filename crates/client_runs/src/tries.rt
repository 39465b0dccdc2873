//! The requests of a run, and the words for them.
ghost use Rattle.std.specs.Prelude.{◌≡◌, ◌+◌, ◌<◌, ◌≤◌, None, IfOk, IfErr, OnOk, OnErr};
ghost use Rattle.pcp_io.specs.Faults.{HasCause};
ghost use Rattle.client_runs.specs.declared.tries.Unanswered.TheVariants.{EntropyFault, Silence};
ghost use Rattle.client_runs.specs.Ticks.{GivesWord, HandsOver};

use pcp_base::{Address, Octets};
use pcp_io::Outbox;
use random_words::Entropy;

/// The UDP port at which servers hear requests (RFC 6887, section 19.1).
pub const SERVER_PORT: u16 = 5351;

/// Why no answer came.
#[derive(Clone, Copy, Debug, PartialEq, Eq)]
pub enum Unanswered {
    /// The inbox failed.
    LinkFault,
    /// No memory was found.
    Memory,
    /// There was no random word.
    EntropyFault,
    /// All tries were sent, and one more request would be due.
    Silence,
    /// As many items came as are waited for.
    Turns,
    /// The inbox gave a stop.
    Stopped,
}

impl From<pcp_base::Memory> for Unanswered {
    ghost use Rattle.std.specs.Prelude.{◌≡◌};
    ghost use Rattle.client_runs.specs.declared.tries.Unanswered.TheVariants as Reasons;

    ghost from_gives = { λ _ why. why ≡ Reasons.Memory };

    fn from(_starved: pcp_base::Memory) -> Unanswered {
        Unanswered::Memory
    }
}

/// How many requests were given of those that may be, and the word that is kept for the next one.
#[derive(Clone, Copy)]
pub(crate) struct Tries {
    pub(crate) limit: u32,
    pub(crate) given: u32,
    pub(crate) word: Option<u32>,
}

impl Tries {
    /// The word for the next tick: one that is drawn and kept until a request came of it, and 0 after the
    /// last try.
    pub(crate) fn next_word<E: Entropy>(&mut self, entropy: &mut E) -> Result<u32, Unanswered>
        ensures word { IfOk result
            (GivesWord self.old self.new (E.words entropy.old) (E.words entropy.new)) }
        ensures fault { IfErr result (λ why. why ≡ EntropyFault) }
        ensures unchanged { OnErr result (E.words entropy.new ≡ E.words entropy.old) }
        ensures cause { HasCause (E.faults entropy.old) (E.faults entropy.new) result }
    {
        if let Some(word) = self.word {
            return Ok(word);
        }
        if self.given >= self.limit {
            return Ok(0);
        }
        let Ok(word) = entropy.word() else {
            return Err(Unanswered::EntropyFault);
        };
        self.word = Some(word);
        Ok(word)
    }

    /// Sends a request to the server's port; one whose send fails is lost. After the last try none is sent.
    pub(crate) fn send<O: Outbox>(
        &mut self,
        server: Address,
        text: &Octets,
        up: &mut O,
    ) -> Result<(), Unanswered>
        ensures more { OnOk result (self.old.given < self.old.limit) }
        ensures counted { OnOk result
            (self.new ≡ record self.old { given = self.old.given + 1; word = None }) }
        ensures sent { OnOk result (HandsOver server text.now
            (record { sent = O.sent up.old; faults = O.faults up.old })
            (record { sent = O.sent up.new; faults = O.faults up.new })) }
        ensures silence { IfErr result (λ why. why ≡ Silence) }
        ensures all { OnErr result (self.old.limit ≤ self.old.given) }
        ensures unsent { OnErr result (O.sent up.new ≡ O.sent up.old) }
        ensures same { OnErr result (O.faults up.new ≡ O.faults up.old) }
    {
        if self.given >= self.limit {
            return Err(Unanswered::Silence);
        }
        self.given += 1;
        self.word = None;
        hand_over(server, text, up);
        Ok(())
    }
}

/// Hands a request to the outbox, for [`SERVER_PORT`] of the server. Where that fails, the request is lost.
pub fn hand_over<O: Outbox>(server: Address, text: &Octets, up: &mut O)
    ensures { HandsOver server text.now
        (record { sent = O.sent up.old; faults = O.faults up.old })
        (record { sent = O.sent up.new; faults = O.faults up.new }) }
{
    let _ = up.send(0, server, SERVER_PORT, text.items());
}
