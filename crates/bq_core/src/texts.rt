//! The YAML texts of statistics and lists. Each is made with one allocation, whose size is computed
//! first.
pub(crate) use names::names_text;
pub(crate) use statistics::{ServerNumbers, TubeNumbers, job_text, server_text, tube_text};

mod builder;
mod key_value;
mod lines;
mod names;
mod statistics;
