//! The cascade as its run sees it.
ghost use Rattle.std.specs.Prelude.{◌≡◌, ◌<◌};
ghost use Rattle.cascade_runs.specs.Cascading.{announcing_from, cascading, sent_of};
ghost use Rattle.pcp_io.specs.declared.clocks.TheConstants.{END_OF_TIME_MS};

use pcp_announce::Announcer;
use pcp_base::{Datagram, Memory, Moment};
use pcp_codec::{ANNOUNCE_OPCODE, write_head};
use proxy_cascade::{Cascade, CascadeOut};
use proxy_core::ProxyOut;
use relay_runs::RelayMachine;
use std::alloc::Global;
use std::marker::Model;

/// A cascade, seen as that, and when its beginning is announced.
#[derive(Drop)]
pub(crate) struct CascadeMachine {
    cascade: Cascade,
    announcer: Announcer,
}

impl Model for CascadeMachine {
    ghost use Rattle.cascade_ties.specs.contracts.ties.Tied as tied;
    ghost use Rattle.cascade_runs.specs.Cascading.{Announcing, announcing_code};

    ghost Value = { Announcing };

    ghost coded = { announcing_code tied.the_row.coded };

    ghost view = { λ m. record { cascade = m.cascade; schedule = m.announcer } };
}

impl CascadeMachine {
    /// A cascade that begins at this time: its clients are told ten times that epochs begin anew, as a
    /// server tells a new base.
    pub(crate) fn begins(cascade: Cascade, now_ms: u64) -> CascadeMachine
        requires { now_ms < END_OF_TIME_MS }
        ensures { result ≡ announcing_from now_ms cascade }
    {
        let Some(second) = Moment::of(now_ms / 1_000) else {
            unreachable!()
        };
        CascadeMachine {
            cascade,
            announcer: Announcer::new(second, true, now_ms),
        }
    }
}

/// What is sent for a datagram from upstream.
fn sent_of(out: CascadeOut) -> ProxyOut
    ensures { result ≡ sent_of out }
{
    match out {
        CascadeOut::Nothing => ProxyOut::Nothing,
        CascadeOut::Down(datagram) => ProxyOut::Reply(datagram),
        CascadeOut::Up(octets) => ProxyOut::Up(octets),
    }
}

impl RelayMachine for CascadeMachine {
    ghost machine = { cascading };

    fn from_client(
        &mut self,
        alloc: Global,
        datagram: &Datagram,
        now_ms: u64,
    ) -> Result<ProxyOut, Memory> {
        self.cascade.from_client(alloc, datagram, now_ms)
    }

    fn from_server(
        &mut self,
        alloc: Global,
        datagram: &Datagram,
        now_ms: u64,
    ) -> Result<ProxyOut, Memory> {
        let out = self.cascade.from_server(alloc, datagram, now_ms)?;
        Ok(sent_of(out))
    }

    fn tick(&mut self, now_ms: u64) -> Option<[u8; 24]> {
        self.cascade.tick(now_ms);
        let mut told = [0; 24];
        if !self.announcer.due(now_ms, &mut told) {
            return None;
        }
        // The epoch is the cascade's, which counts milliseconds and may begin anew.
        write_head(
            &mut told,
            ANNOUNCE_OPCODE,
            0,
            0,
            self.cascade.epoch(),
            &[0; 12],
        );
        Some(told)
    }
}
