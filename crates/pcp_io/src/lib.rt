//! The outside as traits: sources of octets and sinks, inboxes and outboxes of datagrams, links of
//! lanes, clocks and gates, with counts of faults; their forms in memory, whose calls are counted and
//! may be named to fail; and thin adapters over files, the standard streams, sockets and the clock.
#![tactic(auto)]

mod calls;
mod clocks;
mod controls;
mod gates;
mod inboxes;
mod lane_links;
mod lane_texts;
mod memory_inboxes;
mod memory_lanes;
mod memory_outboxes;
mod memory_sinks;
mod memory_sources;
mod outboxes;
mod readers;
mod sinks;
mod sockets;
mod sources;
mod steady_clocks;
mod step_clocks;
mod system_clocks;
mod udp_inboxes;
mod udp_lanes;
mod udp_outboxes;
mod writers;

pub use calls::Calls;
pub use clocks::{Clock, END_OF_TIME_MS};
pub use controls::ORDER_DOOR;
pub use gates::{Gate, NoGate};
pub use inboxes::{Inbox, InboxItem, Incoming, LONGEST_DATAGRAM};
pub use lane_links::{LaneAsk, LaneLink};
pub use memory_inboxes::MemoryInbox;
pub use memory_lanes::MemoryLane;
pub use memory_outboxes::MemoryOutbox;
pub use memory_sinks::MemorySink;
pub use memory_sources::MemorySource;
pub use outboxes::Outbox;
pub use readers::{FileSource, LazyFile, ReadSource, StdSource};
pub use sinks::{Sink, write_all};
pub use sources::Source;
pub use steady_clocks::SteadyClock;
pub use step_clocks::StepClock;
pub use system_clocks::SystemClock;
pub use udp_inboxes::UdpInbox;
pub use udp_lanes::UdpLane;
pub use udp_outboxes::UdpOutbox;
pub use writers::{StdSink, WriteSink};
