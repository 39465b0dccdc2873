//! A house of many threads, served by workers.
#![tactic(auto)]

mod giving_up;
mod houses;
mod laws;
mod lookups;
mod serving;

pub use houses::ServingHouse;
pub use laws::{
    acknowledged_entries_are_kept, crashes_are_along_histories, crashes_are_recovered,
    faulted_rows_have_causes, faults_are_counted, full_queues_were_filled, jobs_are_counted,
    own_entries_are_in_order, own_entries_are_noted, promises_are_kept, raised_moments_are_bases,
    replies_are_of_own_entries, unsent_are_counted,
};
pub use lookups::lookups_are_of_histories;
pub use serving::serve_all;
