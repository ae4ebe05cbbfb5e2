//! Worked examples of the definitions, and tests of values and texts of the protocol, of the seat
//! machine, and of the links between seats and core. The tests use public calls only.
#![tactic(auto)]

#[cfg(test)]
mod cut_readings;
#[cfg(test)]
mod examples;
#[cfg(test)]
mod links;
#[cfg(test)]
mod noted;
#[cfg(test)]
mod pieces;
#[cfg(test)]
mod readers;
#[cfg(test)]
mod seat_machine;
#[cfg(test)]
mod values;
