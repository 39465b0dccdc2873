//! Announcements of the epoch to all hosts (RFC 6887, section 14.1).
ghost use Rattle.pcp_base.specs.Configs.{IsConfig};
ghost use Rattle.pcp_announce.specs.Doors.{groups};
ghost use Rattle.job_dispatch.specs.declared.ports.TheConstants.{ANNOUNCEMENT_PORT};
ghost use Rattle.job_dispatch.specs.Announcing.{Announces};

use crate::ports::ANNOUNCEMENT_PORT;
use job_workers::{JobHouse, send_to_groups};
use pcp_announce::Announcer;
use pcp_base::Config;
use pcp_io::{Clock, Outbox};

/// Asks the epoch word, and announces the epoch by all doors where that is due. It gives the time of
/// the clock, in milliseconds.
pub fn announce<O: Outbox, T: Clock, P, H: JobHouse<P>>(
    house: &H,
    config: &Config,
    pass: &mut P,
    announcer: &mut Announcer,
    out: &mut O,
    clock: &mut T,
) -> u64
    requires config { IsConfig config.now }
    requires pass { (H.calls house.now).is_pass pass.old }
    ensures { Announces (H.calls house.now) (groups config.now) ANNOUNCEMENT_PORT result
        (record {
          pass = pass.old;
          schedule = announcer.old;
          sent = O.sent out.old;
          faults = O.faults out.old;
          times = T.times clock.old;
        })
        (record {
          pass = pass.new;
          schedule = announcer.new;
          sent = O.sent out.new;
          faults = O.faults out.new;
          times = T.times clock.new;
        }) }
{
    let base = house.told(pass);
    let time = clock.now();
    announcer.seen(base, time);
    let mut head = [0; 24];
    let is_due = announcer.due(time, &mut head);
    if !is_due {
        return time;
    }
    send_to_groups(out, config, ANNOUNCEMENT_PORT, &head);
    time
}
