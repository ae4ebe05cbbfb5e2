//! The jobs of a work queue, kept so that each is found quickly and no change of one allocates
//! memory.
//!
//! A [`Jobs`] has three shelves: the jobs by their ids, their places by tube and state or by
//! holder, and their places by moment. A job has a box on each shelf, used or spare, so it can
//! change from any state to any other.
//!
//! [`NumberedJobs`] is the same with a number in place of a tube's name, and takes less memory. A
//! [`TubeTable`] has the names, each with its number and with a value that its user determines. A
//! tube gets its number there before a job is added to it, and it can be removed when it has no
//! jobs. Then its number is free for another tube. A job with a body of 64 bytes takes this much of
//! the heap:
//!
//! - its box by id: 120 bytes;
//! - its place in its tube or at its holder: 40;
//! - its place among delays and leases: 40;
//! - its body and the count of the references to it: at most 80;
//! - what a heap keeps beside each of these four pieces: at most 64;
//! - together: at most 344.
#![tactic(auto)]

pub use ghost_name::GhostName;
pub use laws::{adds_at_the_end, chosen_has_its_id, next_is_free};
pub use named_jobs::Jobs;
pub use numbered_jobs::{
    JobEdit, JobMove, JobRemoval, NumberedJobs, NumberedMove, PackedJob, PackedTest, PriAndState,
};
pub use places::{Group, JobList, Timer};
pub use table::TubeTable;
pub use tube::Tube;
pub use tube_number::TubeNumber;

mod ghost_name;
mod laws;
mod named_group;
mod named_jobs;
mod numbered_jobs;
mod place_shelf;
mod places;
mod slots;
mod table;
mod timers;
mod tube;
mod tube_number;
