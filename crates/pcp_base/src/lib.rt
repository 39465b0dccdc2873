//! The types that every part of the Port Control Protocol server speaks of, and in `specs/` what they
//! mean: prefixes and pairing, the lease table, owners of ports, the state that records make, the epoch.
#![tactic(auto)]

mod addresses;
mod asks;
mod codes;
mod configs;
mod datagrams;
mod errors;
mod judging;
mod laws;
mod leases;
mod lists;
mod moments;
mod numbers;
mod records;
mod replays;

pub use addresses::{Address, Nonce, NotAddress, NotPrefix, Prefix};
pub use asks::{Answer, Ask, MapAsk, PeerAsk, PortSet, Refusal};
pub use codes::{Code, LONG_ERROR, SHORT_ERROR};
pub use configs::{
    Addresses, Config, External, Externals, LONGEST_LIFETIME, ListenAddress, MOST_DOORS,
    MOST_EXTERNALS, MOST_QUOTA, MOST_SUBSCRIBERS, MOST_THIRD_PARTIES, Orders, Prefixes, Subscriber,
    Subscribers, pair,
};
pub use datagrams::{Datagram, Entry};
pub use errors::{Failed, Memory};
pub use laws::{
    ends_at_a_moment, ends_come_in_steps, first_states_are_sound, new_leases_need_room,
    ports_have_one_owner, ports_rest_for_one, snapshots_stand, states_are_sound, tables_decide,
};
pub use leases::{
    End, Endpoint, Filter, FilterList, Filters, MOST_FILTERS, MOST_LEASES, MOST_PEERS, MOST_PORTS,
    MapLease, Owner, OwnerList, PeerLease, Protocol, REST_SECONDS,
};
pub use lists::{Listed, Octets};
pub use moments::{Moment, epoch};
pub use numbers::read_number;
pub use records::{Change, Record};
pub use replays::Replay;
