//! Tests of the run by an event loop, over doors in memory, by public functions alone. The tests
//! choose the order in which the seats act, and connections read and write a few bytes at a time.
//! The notation and the sessions that every run has to pass are those of `bq_scenes`.
#![tactic(auto)]

#[cfg(test)]
mod control_lines;
#[cfg(test)]
mod failing_lines;
#[cfg(test)]
mod flow;
#[cfg(test)]
mod held_bytes;
#[cfg(test)]
mod long_answers;
#[cfg(test)]
mod nobody;
#[cfg(test)]
mod order;
#[cfg(test)]
mod parts;
#[cfg(test)]
mod pieces;
#[cfg(test)]
mod refused;
#[cfg(test)]
mod runs;
#[cfg(test)]
mod script;
#[cfg(test)]
mod script_door;
#[cfg(test)]
mod series;
#[cfg(test)]
mod setting;
#[cfg(test)]
mod timed;
#[cfg(test)]
mod together;
#[cfg(test)]
mod worked;
