//! Tests of the run around a lock and of its journal, by public functions alone.

mod journal;
pub mod runs;
