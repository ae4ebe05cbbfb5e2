//! Tests of the core, and of the jobs and shelves below it. They use public calls only, and expect
//! answers that were found by hand from the rules of the queue.
#![tactic(auto)]

#[cfg(test)]
mod comparisons;
#[cfg(test)]
mod crowds;
#[cfg(test)]
mod jobs;
#[cfg(test)]
mod new_core;
#[cfg(test)]
mod play;
#[cfg(test)]
mod worked;
