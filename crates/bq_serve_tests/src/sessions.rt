//! Tests of the run over doors by threads, by public functions alone.

mod meeting;
pub mod runs;
