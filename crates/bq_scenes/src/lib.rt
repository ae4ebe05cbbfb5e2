//! What the tests of runs have in common: clients in memory and what they receive, control lines in
//! pieces, configurations, and worked runs over doors. It is a crate of its own, so that the crates
//! of tests that use it are proved side by side.
#![tactic(auto)]

pub mod bench;
pub mod clients;
pub mod control;
pub mod drains;
pub mod notation;
pub mod refused;
pub mod rows;
pub mod settings;
pub mod sure;
pub mod table;
pub mod worked;
