//! What serves the requests of a load.
ghost use Rattle.std.specs.Prelude.{◌≡◌, ℕ, ◌≤◌, List, [], ◌∷◌, Err, IfOk, OnOk};
ghost use Rattle.script_player.specs.Ways.{HasFault, WayLaws};
ghost use Rattle.script_player.specs.declared.answerers.AnswerFault.TheVariants.{Disk};
ghost use Rattle.load_player.specs.LoadRuns.{LoadEffects};

use load_summary::LoadKind;
use pcp_base::{Datagram, Memory, Moment, Octets};
use script_player::AnswerFault;
use std::alloc::Global;

/// The reply to a request, and how the request counts.
#[derive(Debug, Drop)]
pub struct LoadReply {
    pub kind: LoadKind,
    pub octets: Octets,
}

/// Serves requests, one after the other, and keeps what they do. A crash may leave images of it,
/// each of which stands for a house.
pub trait LoadAnswerer {
    /// What requests act on. No value of it is made here.
    type House;

    // What each request does to a house, and how it counts.
    ghost effects: { LoadEffects Self.House };

    // Where the house stands.
    ghost house: { Self → Self.House };

    // Whether each image stands for the house, and none is in doubt.
    ghost rests: { Self → Type 0 };

    // Whether at each moment from the one to the other each image stands for one of these houses.
    ghost way: { Self → Self → List Self.House → Type 0 };

    // How many faults each disk of each shard has counted.
    ghost faults: { Self → (shard disk : ℕ) → ℕ };

    /// Serves a request that comes at this moment. The images stand for the house before it or after
    /// it until the answer comes, and from `Ok` on for the one after it. After a fault either may be;
    /// after `Disk` a fault of that shard was counted.
    fn serve(
        &mut self,
        alloc: Global,
        request: &Datagram,
        now: Moment,
    ) -> Result<LoadReply, AnswerFault>
        requires { rests self.old }
        ensures kind { IfOk result
            (λ told. told.kind ≡ effects.kind (house self.old) request.now now) }
        ensures reply { IfOk result
            (λ told. told.octets ≡ effects.reply (house self.old) request.now now) }
        ensures house { OnOk result
            (house self.new ≡ effects.after (house self.old) request.now now) }
        ensures rests { OnOk result (rests self.new) }
        ensures way { way self.old self.new
            (house self.old ∷ effects.after (house self.old) request.now now ∷ []) }
        ensures cause { (shard : ℕ) → result ≡ Err (Disk shard) →
            HasFault (faults self.old shard) (faults self.new shard) }
        ensures later { (shard disk : ℕ) →
            faults self.old shard disk ≤ faults self.new shard disk };

    /// How many leases are live at this moment.
    fn leases(&self, m: Moment) -> u32
        requires { rests self.now }
        ensures { result ≡ effects.leases (house self.now) m };

    /// How many external ports are owned at this moment.
    fn owned(&self, alloc: Global, m: Moment) -> Result<u32, Memory>
        requires { rests self.now }
        ensures { IfOk result (λ n. n ≡ effects.owned (house self.now) m) };

    // What holds of ways.
    ghost ways: { WayLaws way };

    // At rest each image stands for the house.
    ghost stays: { (answerer : Self) →
        rests answerer → way answerer answerer (house answerer ∷ []) };
}
