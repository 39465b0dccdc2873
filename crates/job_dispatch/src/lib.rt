//! The dispatcher: what comes into the inbox goes, in order, to the queues of the external
//! addresses, and the epoch is announced in between.
#![tactic(auto)]

mod announcements;
mod dispatching;
mod losses;
mod naps;
mod noise;
mod orders;
mod ports;
mod sifting;

pub use announcements::announce;
pub use dispatching::dispatch;
pub use naps::nap;
pub use noise::{MOST_NOISE, MOST_NOISE_A_SECOND, NoiseCounts};
pub use ports::{ANNOUNCEMENT_PORT, Port};
