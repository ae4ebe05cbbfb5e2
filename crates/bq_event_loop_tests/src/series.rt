//! Series of settings, each of which a test goes through.

use crate::flow::{FREE, Pace};
use crate::order::Rule;
use crate::setting::{RULES, Setting, by_rule, rule_of, with_pauses};
use bq_event_loop::ControlReads;
use bq_scenes::control::Gives;

/// Two readings a second, one of which fails.
static HALVES: &str = "0 500 1000 1500 2000 2500 3000 fails 3500 4000 4500 5000 5500 6000 6500 \
    7000 7500 8000 8500 9000 9500 10000 10500 11000 11500 12000 12500 13000";

/// A series of settings.
#[derive(Clone, Copy)]
pub enum Series {
    /// Each rule.
    Rules,
    /// Each rule, with a clock that advances.
    Timed,
    /// Control lines that give this and are read so far each time, with a clock that advances.
    Control(&'static [Gives], ControlReads),
    /// Connections that pause once, after each number of bytes below this one.
    Cut(usize),
    /// Each rule, and connections that read 1 to 5 bytes at a time, and write fewer the more they
    /// read.
    Few,
    /// Pauses in long answers.
    Long,
    /// First connections that receive each number of bytes below this one, each with 17 settings,
    /// and then fail.
    WriteFails(usize),
    /// First connections that receive this many bytes, with the same settings, and then would fail.
    WriteAll(usize),
    /// First connections that send each number of bytes below this one, each with 16 settings, and
    /// then fail.
    ReadFails(usize),
}

/// Each rule with each of two paces.
const BOTH: usize = 2 * RULES;

/// The same, and one more.
const MORE: usize = BOTH + 1;

impl Series {
    /// Returns how many settings it has.
    pub fn len(self) -> usize {
        match self {
            Series::Rules | Series::Timed => RULES,
            Series::Control(_, _) => 1,
            Series::Cut(bytes) => bytes.saturating_mul(2),
            Series::Few => 5 * RULES,
            Series::Long => 11,
            Series::WriteFails(bytes) => bytes.saturating_mul(MORE),
            Series::WriteAll(_) => MORE,
            Series::ReadFails(bytes) => bytes.saturating_mul(BOTH),
        }
    }

    /// Returns its setting with this number.
    pub fn setting(self, number: usize) -> Setting {
        match self {
            Series::Rules => by_rule(rule_of(number)),
            Series::Timed => timed(rule_of(number)),
            Series::Control(gives, reads) => control(gives, reads),
            Series::Cut(_) => cut(number / 2, number % 2 == 0),
            Series::Few => few(rule_of(number / 5), number % 5),
            Series::Long => long(number),
            Series::WriteFails(_) => write_fails(number % MORE, number / MORE),
            Series::WriteAll(bytes) => write_fails(number, bytes),
            Series::ReadFails(_) => read_fails(number % BOTH, number / BOTH),
        }
    }
}

fn timed(rule: Rule) -> Setting {
    let mut setting = by_rule(rule);
    setting.readings = HALVES;
    setting
}

fn control(gives: &'static [Gives], reads: ControlReads) -> Setting {
    let mut setting = timed(Rule::Next);
    setting.control = gives;
    setting.reads = reads;
    setting
}

// A pause in what is written, or in both directions.
fn cut(bytes: usize, is_written: bool) -> Setting {
    let pace = (bytes, usize::MAX);
    if is_written {
        with_pauses(Rule::Next, FREE, pace)
    } else {
        with_pauses(Rule::Any, pace, pace)
    }
}

fn few(rule: Rule, more: usize) -> Setting {
    let (reads, writes) = (more.saturating_add(1), 5_usize.saturating_sub(more));
    with_pauses(rule, (reads, reads), (writes, writes))
}

// Returns the numbers of bytes before the first pause of a connection, and between two further
// ones: in the head, after it, in the body, and before, in and after the last line end.
fn pace(number: usize) -> Pace {
    match number {
        0 => (12, 1000),
        1 => (29, 4096),
        2 => (30, 4097),
        3 => (31, 7),
        4 => (230, 1000),
        5 => (228, 1),
        6 => (3030, 1000),
        7 => (60_029, 1),
        8 => (60_030, 1),
        9 => (60_031, 1),
        _ => (60_032, 1),
    }
}

fn long(number: usize) -> Setting {
    let pace = pace(number);
    with_pauses(Rule::Next, (pace.1.saturating_mul(100), 1000), pace)
}

fn both(number: usize) -> Setting {
    let pace = if number < RULES { FREE } else { (5, 3) };
    with_pauses(rule_of(number % RULES), FREE, pace)
}

// The first connection receives all of this many bytes.
fn write_fails(number: usize, bytes: usize) -> Setting {
    let mut setting = if number < BOTH {
        both(number)
    } else {
        with_pauses(Rule::Next, FREE, (bytes, 1))
    };
    setting.room = bytes;
    setting.cut = bytes;
    setting
}

// Returns how many bytes a client of `failing_lines` that sent this many receives.
fn answered(sent: usize) -> usize {
    if sent < 16 {
        0
    } else if sent < 25 {
        12
    } else if sent < 35 {
        29
    } else {
        38
    }
}

fn read_fails(number: usize, bytes: usize) -> Setting {
    let mut setting = both(number);
    setting.sends = bytes;
    setting.cut = answered(bytes);
    setting
}
