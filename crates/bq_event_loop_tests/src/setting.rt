//! The settings of a run besides its clients.

use crate::flow::{FREE, Pace};
use crate::order::Rule;
use bq_event_loop::ControlReads;
use bq_scenes::control::Gives;

/// The settings of a run besides its clients.
#[derive(Clone, Copy)]
pub struct Setting {
    pub rule: Rule,
    /// How many bytes reads and writes of a connection move.
    pub gives: Pace,
    pub takes: Pace,
    /// At the first door: after a client has sent this many bytes, each read of it fails.
    pub sends: usize,
    /// At the first door: after a client has received this many bytes, each write to it fails.
    pub room: usize,
    /// At the first door: a client receives at most this many bytes of what it would receive.
    pub cut: usize,
    /// The readings of the clock, which fails at each word that is no number.
    pub readings: &'static str,
    /// What the reads of the control line give.
    pub control: &'static [Gives],
    pub reads: ControlReads,
}

/// Returns this limit at the first door, and none at the others.
pub fn at_first(door: usize, limit: usize) -> usize {
    if door == 0 { limit } else { usize::MAX }
}

/// Returns the settings of a run by this rule without faults, whose connections pause in this way
/// when they are read and written, whose clock always reads the same, and whose control line has no
/// text.
pub fn with_pauses(rule: Rule, gives: Pace, takes: Pace) -> Setting {
    Setting {
        rule,
        gives,
        takes,
        sends: usize::MAX,
        room: usize::MAX,
        cut: usize::MAX,
        readings: "0",
        control: &[],
        reads: ControlReads::Once,
    }
}

/// The same without pauses.
pub fn by_rule(rule: Rule) -> Setting {
    with_pauses(rule, FREE, FREE)
}

/// How many rules there are.
pub const RULES: usize = 8;

/// Returns the rule with this number. Two of the seats are starved, one after the other.
pub fn rule_of(number: usize) -> Rule {
    match number {
        0 => Rule::First,
        1 => Rule::Last,
        2 => Rule::Next,
        3 => Rule::Starved(0),
        4 => Rule::Starved(1),
        5 => Rule::Any,
        6 => Rule::Woken,
        _ => Rule::Commands,
    }
}
