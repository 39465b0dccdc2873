//! What answers the lines of a script.
ghost use Rattle.std.specs.Prelude.{◌≡◌, ℕ, ◌≤◌, List, [], ◌∷◌, Err, IfOk, OnOk};
ghost use Rattle.pcp_script.specs.declared.lines.Line.{Line};
ghost use Rattle.script_player.specs.Houses.{LineEffects};
ghost use Rattle.script_player.specs.Scripts.{IsRead};
ghost use Rattle.script_player.specs.Ways.{HasFault, WayLaws};
ghost use Rattle.script_player.specs.declared.answerers.AnswerFault.TheVariants.{Disk};

use pcp_base::{Config, Memory};
use pcp_script::{Line, LineResult};
use std::alloc::Global;

/// Why a line has no result.
#[derive(Clone, Copy, Debug, PartialEq, Eq)]
pub enum AnswerFault {
    /// A disk of this shard failed, and counted that.
    Disk(u32),
    /// No memory was found.
    Memory,
}

impl From<Memory> for AnswerFault {
    ghost use Rattle.std.specs.Prelude.{◌≡◌};
    ghost use Rattle.script_player.specs.declared.answerers.AnswerFault.TheVariants.{Memory};

    ghost from_gives = { λ _ fault. fault ≡ Memory };

    fn from(_starved: Memory) -> AnswerFault {
        AnswerFault::Memory
    }
}

/// Answers lines, one after the other, and keeps what they do. A crash may leave images of it, each
/// of which stands for a house.
pub trait LineAnswerer {
    /// What lines act on. No value of it is made here.
    type House;

    // What lines may name, what each does to a house, and what it is told.
    ghost effects: { LineEffects Self.House };

    // Where the house stands.
    ghost house: { Self → Self.House };

    // Whether at each moment from the one to the other each image stands for one of these houses.
    ghost way: { Self → Self → List Self.House → Type 0 };

    // Whether it may answer: no line is in doubt, and each image stands for its house.
    ghost rests: { Self → Type 0 };

    // How many faults each disk of each shard has counted.
    ghost faults: { Self → (shard disk : ℕ) → ℕ };

    /// The configuration, by which lines are read.
    fn config(&self) -> &Config
        ensures { result.now.externals ≡ effects.externals (house self.now) };

    /// Answers a line and says its result: none for an empty line or a comment. The images stand
    /// for the house before it or after it until the answer comes, and from `Ok` on for the one
    /// after it. After a fault either may be; after `Disk` a fault of that shard was counted.
    fn answer(&mut self, alloc: Global, line: &Line) -> Result<Option<LineResult>, AnswerFault>
        requires line { IsRead (effects.externals (house self.old)) line.now }
        requires rests { rests self.old }
        ensures result { IfOk result
            (λ told. told ≡ effects.result_of (house self.old) line.now) }
        ensures house { OnOk result (house self.new ≡ effects.after (house self.old) line.now) }
        ensures rests { OnOk result (rests self.new) }
        ensures way { way self.old self.new
            (house self.old ∷ effects.after (house self.old) line.now ∷ []) }
        ensures cause { (shard : ℕ) → result ≡ Err (Disk shard) →
            HasFault (faults self.old shard) (faults self.new shard) }
        ensures later { (shard disk : ℕ) →
            faults self.old shard disk ≤ faults self.new shard disk };

    // What holds of ways.
    ghost ways: { WayLaws way };

    // Where it may answer, each image stands for its house.
    ghost stays: { (answerer : Self) → rests answerer →
        way answerer answerer (house answerer ∷ []) };

    // Lines don't change which external addresses there are.
    ghost same_externals: { (house : Self.House) (line : Line) →
        effects.externals (effects.after house line) ≡ effects.externals house };
}
