//! Tests of the runs over many doors, by public functions alone. They use clients in memory, the
//! doors where these connect, and a control line in pieces. Every run has to pass the same tests.
//! Module `memory` makes calls that fail for lack of memory.
#![tactic(auto)]

#[cfg(test)]
mod cases;
#[cfg(test)]
mod doors;
#[cfg(test)]
mod groups;
#[cfg(test)]
mod lock;
#[cfg(test)]
mod memory;
#[cfg(test)]
mod scene;
#[cfg(test)]
mod sessions;
