//! Tables of runs: their clients, and what has to become of these.

use crate::rows::is_end;
use bq_job::LineEnd;
use std::alloc::Global;

/// Ample room for what a client receives.
const ROOM: usize = 1_000_000;

/// A client of a run, and the result of its connection.
#[derive(Clone, Copy)]
pub struct Visit {
    /// The number of the run in its table.
    pub run: usize,
    /// The number of the door where it connects.
    pub door: usize,
    /// What it does: parts of a connection, with ` + ` between one and the next.
    pub does: &'static str,
    /// After it has received this many bytes, each write to it fails.
    pub room: usize,
    /// What it receives, in the notation of module `notation`.
    pub receives: &'static str,
    /// How its connection ends.
    pub end: LineEnd,
}

/// A run: its number in its table, and how many doors and clients it has.
#[derive(Clone, Copy)]
pub struct Run {
    pub number: usize,
    pub doors: usize,
    pub clients: usize,
}

impl Run {
    /// Returns how often its doors are opened: once for each connection, and once more per door.
    pub fn opens(&self) -> u64 {
        self.clients.saturating_add(self.doors) as u64
    }
}

/// Runs whose results are known.
#[derive(Drop)]
pub struct Table {
    pub runs: Vec<Run, Global>,
    /// The clients of all runs. Those of one door connect in this order.
    pub visits: Vec<Visit, Global>,
    /// False if an allocation failed or a text could not be read.
    pub is_whole: bool,
    // How many clients the runs have that are described.
    described: usize,
}

impl Table {
    /// Returns the runs that a text describes, with an empty line between one and the next. A line
    /// of the text has a client: what it does; after ` > ` what it receives; and after another ` >
    /// ` how its connection ends, unless that is by the end of its input. It has ample room, unless
    /// what it does begins with `room`, the number of bytes, and ` + `. Each connects at a door of
    /// its own, unless its line begins with `& `: then it connects at the door of the previous one,
    /// and after it. The line `no clients` is a door without any.
    pub fn of_text(alloc: Global, text: &'static str) -> Table {
        let mut table = Table {
            runs: Vec::new(alloc),
            visits: Vec::new(alloc),
            is_whole: true,
            described: 0,
        };
        for run in text.split("\n\n") {
            table.add_run(run);
        }
        table
    }

    fn add_client(
        &mut self,
        door: usize,
        does: &'static str,
        receives: &'static str,
        end: LineEnd,
    ) {
        let (does, room) = with_room(does);
        let visit = Visit {
            run: self.runs.len(),
            door,
            does,
            room,
            receives,
            end,
        };
        if self.visits.push(visit).is_err() {
            self.is_whole = false;
        }
    }

    fn add_line(&mut self, door: usize, line: &'static str) {
        match line.split_once(" > ") {
            Some((does, rest)) => {
                let (receives, end) = rest.split_once(" > ").unwrap_or((rest, ""));
                self.add_client(door, does, receives, end_of(end));
            }
            None => self.is_whole = self.is_whole && line == "no clients",
        }
    }

    fn add_run(&mut self, run: &'static str) {
        let mut doors: usize = 0;
        for line in run.split('\n') {
            match line.trim().strip_prefix("& ") {
                Some(line) => self.add_line(doors.saturating_sub(1), line),
                None => {
                    self.add_line(doors, line.trim());
                    doors = doors.saturating_add(1);
                }
            }
        }
        self.end_run(doors);
    }

    // Ends the description of a run with this many doors.
    fn end_run(&mut self, doors: usize) {
        let run = Run {
            number: self.runs.len(),
            doors,
            clients: self.visits.len().saturating_sub(self.described),
        };
        self.described = self.visits.len();
        if self.runs.push(run).is_err() {
            self.is_whole = false;
        }
    }
}

// Splits the room from what a client does.
fn with_room(does: &'static str) -> (&'static str, usize) {
    match does.strip_prefix("room ") {
        Some(rest) => {
            let (room, does) = rest.split_once(" + ").unwrap_or((rest, ""));
            (does, room.parse::<usize>().unwrap_or(0))
        }
        None => (does, ROOM),
    }
}

// Returns the end with this name.
fn end_of(name: &str) -> LineEnd {
    for end in [LineEnd::Quit, LineEnd::ReadFault, LineEnd::WriteFault] {
        if is_end(end, name) {
            return end;
        }
    }
    LineEnd::EndOfInput
}
