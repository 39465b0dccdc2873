//! What a server tells without being asked, and by which doors: announcements of a new epoch (RFC 6887,
//! section 14.1), and updates of leases whose external address changed (section 14.2).
#![tactic(auto)]

mod announcer;
mod doors;
mod updates;

pub use announcer::{ANNOUNCEMENTS, Announcer, FIRST_GAP_MS};
pub use doors::{
    ALL_HOSTS_V4, ALL_HOSTS_V6, Door, Group, ORDER_DOOR, door_at, door_count, group_of, reaches,
};
pub use updates::{write_map_update, write_peer_update};

#[cfg(test)]
mod tests;
