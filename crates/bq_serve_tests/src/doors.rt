//! Doors in memory, with clients that connect.
ghost use Rattle.std.specs.Prelude.{◌≡◌, false, IfOk, []};
ghost use Rattle.std.specs.List.{All};
ghost use Rattle.bq_line.specs.MemDoors.{IsFresh};
ghost use Rattle.bq_line.specs.Tending.{IsNewDoor};

use crate::cases::Case;
use bq_job::{LineEnd, NoMemory};
use bq_line::line::MemLine;
use bq_line::{Door, DoorFault, MemDoor, Opening, Watcher};
use bq_scenes::clients::parts_of;
use bq_scenes::notation::{len_of, spells};
use bq_scenes::table::{Table, Visit};
use std::alloc::Global;
use std::collections::VecDeque;
use std::sync::atomic::{AtomicU64, Ordering};

/// A door that counts how often it was opened.
#[derive(Drop)]
pub struct CountedDoor<'c> {
    pub door: MemDoor,
    opened: &'c AtomicU64,
}

impl<'c> Door for CountedDoor<'c> {
    ghost use Rattle.std.proofs.Common.{refl};
    ghost use Rattle.std.specs.Prelude.{true};

    type Line = MemLine;

    ghost is_out = { λ d. ⟦<MemDoor as Door>⟧.is_out d.door };

    ghost is_at_end = { λ d. ⟦<MemDoor as Door>⟧.is_at_end d.door };

    ghost lines_over = { λ d. ⟦<MemDoor as Door>⟧.lines_over d.door };

    ghost same = { λ first last. ⟦<MemDoor as Door>⟧.same first.door last.door };

    // The streams of its clients may fail.
    ghost may_fail = { λ d. true };

    ghost same_self = { λ d. refl };

    ghost same_streams = { λ first last same. refl };

    fn open(&mut self) -> Result<Option<MemLine>, DoorFault> {
        self.opened.fetch_add(1, Ordering::SeqCst);
        self.door.open()
    }

    fn try_open<W: Watcher>(
        &mut self,
        may_have_come: bool,
        watcher: &W,
    ) -> Result<Opening<MemLine>, DoorFault> {
        self.opened.fetch_add(1, Ordering::SeqCst);
        self.door.try_open(may_have_come, watcher)
    }

    fn shut(&mut self, line: MemLine, end: LineEnd) {
        self.door.shut(line, end);
    }
}

/// Doors that were not used yet.
#[derive(Drop)]
pub struct NewDoors<'c> {
    pub all: Vec<CountedDoor<'c>, Global>,
    ghost new: { All (λ door. IsNewDoor (record {
      is_out = ⟦<MemDoor as Door>⟧.is_out door.door;
      is_at_end = ⟦<MemDoor as Door>⟧.is_at_end door.door;
      lines_over = ⟦<MemDoor as Door>⟧.lines_over door.door;
    })) all.items },
}

impl<'c> NewDoors<'c> {
    // Adds a door.
    fn push(&mut self, door: MemDoor, opened: &'c AtomicU64) -> Result<(), NoMemory>
        requires inside { ⟦<MemDoor as Door>⟧.is_out door ≡ false }
        requires more { ⟦<MemDoor as Door>⟧.is_at_end door ≡ false }
        requires none_over { ⟦<MemDoor as Door>⟧.lines_over door ≡ [] }
    {
        match self.all.push(CountedDoor { door, opened }) {
            Ok(()) => Ok(()),
            Err(_) => Err(NoMemory),
        }
    }
}

// Adds the connection of a client, which receives no more than `room` bytes. Returns false if an
// allocation fails.
fn adds_line(
    alloc: Global,
    lines: &mut VecDeque<MemLine, Global>,
    visit: &Visit,
    room: usize,
) -> bool
    requires { All IsFresh lines.old.items }
    ensures { All IsFresh lines.new.items }
{
    let Ok(parts) = parts_of(alloc, visit.does) else {
        return false;
    };
    match MemLine::new(alloc, parts, visit.room.min(room)) {
        Ok(line) => lines.push_back(line).is_ok(),
        Err(_) => false,
    }
}

// Returns the door of a run with this number.
fn door(alloc: Global, case: &Case, number: usize) -> Result<MemDoor, NoMemory>
    ensures inside { IfOk result (λ door. ⟦<MemDoor as Door>⟧.is_out door ≡ false) }
    ensures more { IfOk result (λ door. ⟦<MemDoor as Door>⟧.is_at_end door ≡ false) }
    ensures none_over { IfOk result (λ door. ⟦<MemDoor as Door>⟧.lines_over door ≡ []) }
{
    let mut lines: VecDeque<MemLine> = VecDeque::new(alloc);
    for visit in &case.table.visits {
        let is_here = visit.run == case.run.number && visit.door == number;
        if is_here && !adds_line(alloc, &mut lines, visit, case.room_at(number)) {
            drop(lines);
            return Err(NoMemory);
        }
    }
    MemDoor::new(alloc, lines)
}

// Adds the doors of a run.
fn add_doors<'c>(
    alloc: Global,
    doors: &mut NewDoors<'c>,
    case: &Case,
    opened: &'c AtomicU64,
) -> Result<(), NoMemory> {
    for number in 0..case.run.doors {
        match door(alloc, case, number) {
            Ok(door) => doors.push(door, opened)?,
            Err(_) => return Err(NoMemory),
        }
    }
    Ok(())
}

/// Returns the doors of a run. They share a count of how often they are opened.
pub fn doors<'c>(
    alloc: Global,
    case: &Case,
    opened: &'c AtomicU64,
) -> Result<NewDoors<'c>, NoMemory> {
    let mut doors = NewDoors {
        all: Vec::new(alloc),
    };
    match add_doors(alloc, &mut doors, case, opened) {
        Ok(()) => Ok(doors),
        Err(_) => {
            drop(doors);
            Err(NoMemory)
        }
    }
}

// Returns true if a connection with this room was left as the table says. Without enough room its
// last write fails.
fn is_so(visit: &Visit, room: usize, line: &MemLine, end: LineEnd) -> bool {
    let is_cut = room < len_of(visit.receives);
    let wanted = if is_cut {
        LineEnd::WriteFault
    } else {
        visit.end
    };
    end == wanted && spells(visit.receives, line.written(), room)
}

// Returns true if the door has served these clients, in this order, and has none left.
fn is_left_so(door: &CountedDoor, table: &Table, run: usize, number: usize, room: usize) -> bool {
    let mut served: usize = 0;
    for visit in &table.visits {
        if visit.run == run && visit.door == number {
            match door.door.over().get(served) {
                Some((line, end)) if is_so(visit, room, line, *end) => {}
                _ => return false,
            }
            served = served.saturating_add(1);
        }
    }
    door.door.over().len() == served && door.door.left() == 0
}

/// Returns true if the doors have served the clients of this run of the case's table.
pub fn are_left_so(doors: &[CountedDoor], case: &Case, run: usize) -> bool {
    for number in 0..doors.len() {
        let room = case.room_at(number);
        if !is_left_so(&doors[number], case.table, run, number, room) {
            return false;
        }
    }
    doors.len() == case.run.doors && run < case.table.runs.len()
}
