//! Runs over doors in memory, each with its wanted result.

use crate::doors::{CountedDoor, are_left_so};
use bq_core_api::Config;
use bq_host::RunFault;
use bq_job::USUAL_BODY;
use bq_scenes::control::Gives;
use bq_scenes::drains;
use bq_scenes::refused::{ONE, rows};
use bq_scenes::settings::config;
use bq_scenes::table::{Run, Table};
use bq_scenes::worked::EXAMPLES;
use std::alloc::Global;

/// How a run came out.
#[derive(Clone, Copy)]
pub enum Came {
    AsWanted,
    /// Its clients were left with other results, which are as good.
    Otherwise,
    /// The run failed, and opened no door.
    Failed(RunFault),
    Wrong,
}

/// A run over doors in memory.
#[derive(Clone, Copy)]
pub struct Case<'t> {
    pub config: Config,
    pub table: &'t Table,
    pub run: Run,
    /// How many bytes each client at the first door can receive, and each one at another door, if
    /// it has room for them.
    pub rooms: (usize, usize),
    /// The reads of the control line.
    pub gives: &'static [Gives],
    /// Whether the core accepts no put after the run, if that is known.
    pub drains: Option<bool>,
    /// The room in the journal, if the run has one.
    pub journal: usize,
    /// If true, the journal has to be complete, and is replayed.
    pub is_replayed: bool,
    /// The error with which the run has to fail.
    pub fault: Option<RunFault>,
}

/// Ample room for what a client receives.
const ROOM: usize = 1000;

/// Room in a journal for all steps of a run, including ticks.
const JOURNAL_ROOM: usize = 2000;

impl<'t> Case<'t> {
    /// Returns the run of a table with this number, with a silent control line and the usual
    /// settings.
    pub fn new(table: &'t Table, number: usize) -> Option<Case<'t>> {
        match table.runs.get(number) {
            Some(run) if table.is_whole => Some(Case {
                config: config(run.doors.min(256) as u16, USUAL_BODY),
                table,
                run: *run,
                rooms: (ROOM, ROOM),
                gives: &[],
                drains: None,
                journal: JOURNAL_ROOM,
                is_replayed: true,
                fault: None,
            }),
            _ => None,
        }
    }

    /// Returns the room of each client at this door.
    pub fn room_at(&self, door: usize) -> usize {
        if door == 0 {
            self.rooms.0
        } else {
            self.rooms.1
        }
    }

    /// Returns how the run came out that left the doors like this, and opened them so often. If
    /// `is_kept` is false, something else was not left as wanted. The next run of the table has the
    /// other results that the clients may be left with.
    pub fn came(&self, doors: &[CountedDoor], opened: u64, is_kept: bool) -> Came {
        if !is_kept || opened != self.run.opens() || self.fault.is_some() {
            Came::Wrong
        } else if are_left_so(doors, self, self.run.number) {
            Came::AsWanted
        } else if are_left_so(doors, self, self.run.number.saturating_add(1)) {
            Came::Otherwise
        } else {
            Came::Wrong
        }
    }

    /// Returns how the run came out that failed after the doors were opened so often.
    pub fn failed(&self, fault: RunFault, opened: u64) -> Came {
        match self.fault {
            _ if opened != 0 => Came::Wrong,
            Some(wanted) if wanted.code() == fault.code() => Came::AsWanted,
            _ => Came::Failed(fault),
        }
    }
}

/// Runs that belong together.
#[derive(Clone, Copy)]
pub enum Group {
    /// Each example whose result was worked out by hand, many times.
    Worked,
    /// One of two connections is cut off after each number of bytes.
    CutOff,
    /// The connection of a client that waits fails.
    Broken,
    /// One door without clients, with each of the control lines.
    Drained,
    /// One client, with each of the configurations.
    Refused,
}

static BOTH: &str = "reserve~ + after 19 > RESERVED 1 3~abc~
    put 5 0 10 3~abc~ > INSERTED 1~";

// A client that waits and whose connection fails receives its whole answer or nothing.
static BROKEN: &str = "reserve~ + fails > RESERVED 1 3~abc~ > read fault
    put 5 0 10 3~abc~ > INSERTED 1~

    reserve~ + fails >  > read fault
    put 5 0 10 3~abc~ > INSERTED 1~";

/// Returns the table of a group.
pub fn table_of(alloc: Global, group: Group) -> Table {
    match group {
        Group::Worked => Table::of_text(alloc, EXAMPLES),
        Group::CutOff => Table::of_text(alloc, BOTH),
        Group::Broken => Table::of_text(alloc, BROKEN),
        Group::Drained => Table::of_text(alloc, "no clients"),
        Group::Refused => Table::of_text(alloc, ONE),
    }
}

/// More runs than any group has.
pub const MOST: usize = 1000;

/// How often the run of each example is repeated.
const TIMES: usize = 10;

/// How many runs there are in which a connection is cut off: two for each number of bytes.
const CUT_OFF: usize = 40;

/// Returns a run of a group over its table, or `None` if the group has no run with this number.
pub fn case_of(table: &Table, group: Group, number: usize) -> Option<Case<'_>> {
    match group {
        Group::Worked => Case::new(table, number / TIMES),
        Group::CutOff if number < CUT_OFF => cut_off(table, number),
        Group::Broken if number == 0 => Case::new(table, 0),
        Group::Drained => drained(table, number),
        Group::Refused => refused(table, number),
        _ => None,
    }
}

// A client that waits receives at most half as many bytes as the number or, if that is odd, another
// client, which puts a job.
fn cut_off(table: &Table, number: usize) -> Option<Case<'_>> {
    let mut case = Case::new(table, 0)?;
    if number % 2 == 0 {
        case.rooms.0 = number / 2;
    } else {
        case.rooms.1 = number / 2;
    }
    Some(case)
}

fn drained(table: &Table, number: usize) -> Option<Case<'_>> {
    let (gives, drains) = drains::examples().get(number)?;
    let mut case = Case::new(table, 0)?;
    case.gives = *gives;
    case.drains = Some(*drains);
    Some(case)
}

fn refused(table: &Table, number: usize) -> Option<Case<'_>> {
    let (seats, max_job_size, fault) = rows().get(number)?;
    let mut case = Case::new(table, 0)?;
    case.config = config(*seats, *max_job_size);
    case.fault = *fault;
    case.is_replayed = false;
    Some(case)
}
