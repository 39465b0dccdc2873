//! The sockets of the program's commands, and the inboxes, outboxes, lanes and clocks over them.
#![tactic(auto)]

mod clocks;
mod doors;
mod ears;
mod host_links;
mod inboxes;
mod order_doors;
mod order_lines;
mod order_links;
mod outboxes;
mod relay_inboxes;
mod relay_outboxes;
mod routes;
mod server_inboxes;
mod server_lanes;
mod server_links;
mod sockets;

pub use crate::clocks::{Gap, clock_from_now, clocks_of, gap_of, start_of, system_time};
pub use crate::doors::LinksFault;
pub use crate::ears::{client_inbox, told_and_ordered, told_place, told_socket};
pub use crate::inboxes::{DoorsInbox, Ear};
pub use crate::order_lines::{OrderLine, read_order_line};
pub use crate::order_links::UnixOrders;
pub use crate::outboxes::{DoorsOutbox, Mouth};
pub use crate::relay_inboxes::RelayInbox;
pub use crate::relay_outboxes::{RelayOutbox, inner_place};
pub use crate::routes::{default_router, router_of_host};
pub use crate::server_inboxes::ServerInbox;
pub use crate::server_lanes::ServerLane;
pub use crate::server_links::{ServerLinks, links_of, no_links};
pub use crate::sockets::{CLIENT_PORT, ip_of, loopback_at, own_address_to, same_socket, socket_at};
