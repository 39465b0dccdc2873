//! The threads of a server: a dispatcher, a worker for each external address, and a loop for each
//! lane.
#![tactic(auto)]

mod begun;
mod begun_house;
mod endings;
mod faults;
mod laws;
mod parting;
mod rooms;
mod seats;
mod serving;
mod splitting;
mod threads;

pub use begun::serve_room;
pub use begun_house::serve_begun;
pub use endings::finish_all;
pub use faults::{RunFault, ServeFault};
pub use laws::{passes_stay, rows_count};
pub use parting::serve_parts;
pub use rooms::{Room, make_room};
pub use seats::{Seat, add_seats, seat_all, take_first};
pub use serving::run_seated;
pub use splitting::split_first;
pub use threads::run_threads;
