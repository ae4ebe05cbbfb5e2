//! Doors in memory where clients connect whose bytes are read and written in pieces.
ghost use Rattle.std.specs.Prelude.{◌≡◌, ◌≤◌, ◌+◌, length, map, vec_len, if◌then◌else◌};
ghost use Rattle.std.specs.Vec.{vec_capacity};
ghost use Rattle.std.specs.List.{All};
ghost use Rattle.bq_line.specs.Tending.{IsNewDoor};

use crate::script::Script;
use crate::setting::Setting;
use crate::together::Together;
use bq_job::LineEnd;
use bq_line::line::{IoLine, Line};
use bq_line::{Door, DoorFault, Opening, Watcher};
use bq_scenes::table::{Run, Table};
use std::alloc::Global;
use std::collections::VecDeque;

/// A door where clients connect, one after another.
#[derive(Drop)]
pub struct ScriptDoor<'t> {
    seat: usize,
    all: &'t Together,
    coming: VecDeque<Script<'t>, Global>,
    over: Vec<(IoLine<Script<'t>>, LineEnd), Global>,
    is_out: bool,
    is_at_end: bool,
    // There is room for each connection that is open or still to come.
    ghost room: { vec_len over + (length coming.items + (if is_out then 1 else 0)) ≤ vec_capacity over },
}

impl<'t> ScriptDoor<'t> {
    /// Returns true if no connection is left to come, and each client was left as it has to be, but
    /// with at most this many bytes.
    pub fn is_left_so(self, most: usize) -> bool {
        let ScriptDoor {
            seat: _,
            all: _,
            coming,
            over,
            is_out,
            is_at_end: _,
        } = self;
        let is_done = coming.is_empty() && !is_out;
        drop(coming);
        are_left_so(over, most) && is_done
    }
}

// Returns true if the clients of these connections were left as they have to be.
fn are_left_so(over: Vec<(IoLine<Script<'_>>, LineEnd), Global>, most: usize) -> bool {
    let mut are_right = true;
    for (line, end) in over {
        if !line.into_stream().is_left_so(most, end) {
            are_right = false;
        }
    }
    are_right
}

impl<'t> Door for ScriptDoor<'t> {
    ghost use Rattle.std.proofs.Common.{refl};
    ghost use Rattle.std.specs.Prelude.{true};

    type Line = IoLine<Script<'t>>;

    ghost is_out = { λ d. d.is_out };

    ghost is_at_end = { λ d. d.is_at_end };

    ghost lines_over = { λ d. map (λ o. record { seen = ⟦<IoLine<Script<'t>> as Line>⟧.seen o.0; over = o.1 }) d.over.items };

    ghost same = { λ first last. last.seat ≡ first.seat };

    // The streams of its clients may fail.
    ghost may_fail = { λ d. true };

    ghost same_self = { λ d. refl };

    ghost same_streams = { λ first last same. refl };

    fn open(&mut self) -> Result<Option<IoLine<Script<'t>>>, DoorFault> {
        self.all.note_opened();
        match self.coming.pop_front() {
            Some(client) => {
                self.is_out = true;
                Ok(Some(IoLine::new(client)))
            }
            None => {
                self.is_at_end = true;
                Ok(None)
            }
        }
    }

    fn try_open<W: Watcher>(
        &mut self,
        _may_have_come: bool,
        _watcher: &W,
    ) -> Result<Opening<IoLine<Script<'t>>>, DoorFault> {
        match self.open() {
            Ok(Some(line)) => Ok(Opening::Line(line)),
            Ok(None) => Ok(Opening::NoMore),
            Err(e) => Err(e),
        }
    }

    fn shut(&mut self, line: IoLine<Script<'t>>, end: LineEnd) {
        self.is_out = false;
        self.over.push((line, end)).unwrap();
    }
}

/// Doors that were not used yet.
#[derive(Drop)]
pub struct NewDoors<'t> {
    pub all: Vec<ScriptDoor<'t>, Global>,
    ghost new: { All (λ door. IsNewDoor (record {
      is_out = ⟦<ScriptDoor<'static> as Door>⟧.is_out door;
      is_at_end = ⟦<ScriptDoor<'static> as Door>⟧.is_at_end door;
      lines_over = ⟦<ScriptDoor<'static> as Door>⟧.lines_over door;
    })) all.items },
}

impl<'t> NewDoors<'t> {
    // Adds a door where these clients connect, unless an allocation fails.
    fn add(&mut self, alloc: Global, coming: VecDeque<Script<'t>, Global>, all: &'t Together) {
        let Ok(over) = Vec::with_capacity(alloc, coming.len()) else {
            return;
        };
        let _pushed = self.all.push(ScriptDoor {
            seat: self.all.len(),
            all,
            coming,
            over,
            is_out: false,
            is_at_end: false,
        });
    }
}

// Returns the clients of a run that connect at this door. If an allocation fails, some are missing.
fn coming_at<'t>(
    alloc: Global,
    table: &Table,
    run: usize,
    door: usize,
    setting: &Setting,
    all: &'t Together,
) -> VecDeque<Script<'t>, Global> {
    let mut coming: VecDeque<Script<'t>> = VecDeque::new(alloc);
    for visit in &table.visits {
        if visit.run == run && visit.door == door {
            let _pushed = coming.push_back(Script::new(alloc, visit, setting, all));
        }
    }
    coming
}

/// Returns the doors of a run, where its clients connect. If an allocation fails, some are missing.
pub fn doors_of<'t>(
    alloc: Global,
    table: &Table,
    run: Run,
    setting: &Setting,
    all: &'t Together,
) -> NewDoors<'t> {
    let mut doors = NewDoors {
        all: Vec::new(alloc),
    };
    for door in 0..run.doors {
        doors.add(
            alloc,
            coming_at(alloc, table, run.number, door, setting, all),
            all,
        );
    }
    doors
}
