//! The state of a core: the jobs, the seats, the tubes, and what is known of them without a search.
//!
//! A [`core_parts::CoreParts`] represents the one-list model that `bq_job` defines, and the
//! contract of each operation says how it changes that model. `bq_core` decides when they are
//! called.
#![tactic(auto)]

pub mod changes;
pub mod core_parts;
pub mod job_store;
pub mod known;
pub mod name_lists;
mod roles;
pub mod seats;
pub mod store;
pub mod tubes;
pub mod waiting;
mod watch_list;
