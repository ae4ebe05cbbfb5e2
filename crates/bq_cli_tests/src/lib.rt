//! Tests of the options, of the run of one connection, of a lone client's session and of the
//! server. They are in a crate of their own, so that the tested crates are not proved again for
//! them.
#![tactic(auto)]

#[cfg(test)]
mod command_line;
#[cfg(test)]
mod heard;
#[cfg(test)]
mod one_line;
#[cfg(test)]
mod readings;
#[cfg(test)]
mod served;
#[cfg(test)]
mod session;
#[cfg(test)]
mod told;
