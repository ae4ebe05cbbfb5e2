ghost use Rattle.std.specs.Prelude.{◌≡◌, ◌≤◌, ◌+◌, ◌++◌, ◌-◌, [], drop, length, map, vec_len, if◌then◌else◌};
ghost use Rattle.std.specs.Prelude.{◌↔◌, IfErr, IfOk, IsNone, Ok, false, true};
ghost use Rattle.std.specs.List.{All};
ghost use Rattle.std.specs.Option.{option_to_list};
ghost use Rattle.std.specs.Vec.{vec_capacity};
ghost use Rattle.bq_line.specs.Doors.{IfLine, IfOpened, IsOpened, IsTryOpened, MayOpen};
ghost use Rattle.bq_line.specs.Streams.{IsSureLine};
ghost use Rattle.bq_line.specs.MemDoors.{IsFresh, line_over};

use super::{Door, DoorFault, Opening};
use crate::line::{Line, MemLine, Watcher};
use bq_job::{LineEnd, NoMemory};
use std::alloc::Global;
use std::collections::VecDeque;
use std::snapshot::Snapshot;

/// The connections that were put in at a door, for proofs only.
#[derive(Drop)]
struct PutIn {
    lines: Snapshot<VecDeque<MemLine, Global>>,
}

/// A door in memory, with connections that come one after another, and connections that have ended.
#[derive(Drop)]
pub struct MemDoor {
    coming: VecDeque<MemLine, Global>,
    over: Vec<(MemLine, LineEnd), Global>,
    is_out: bool,
    is_at_end: bool,
    put_in: PutIn,
    // There is room for every connection that is open or still to come.
    ghost room: { vec_len over + (length coming.items + (if is_out then 1 else 0)) ≤ vec_capacity over },
    ghost fresh: { All IsFresh coming.items },
    ghost end: { is_at_end ≡ true → coming.items ≡ [] },
    // All connections that were put in have ended, are open, or are still to come; those to come
    // are the last of them.
    ghost all: { vec_len over + (length coming.items + (if is_out then 1 else 0)) ≡ length put_in.lines.value.items },
    ghost last: { coming.items ≡ drop (length put_in.lines.value.items - length coming.items) put_in.lines.value.items },
}

impl MemDoor {
    /// Returns a door at which these unused connections come, in this order. Returns `NoMemory` if
    /// the allocation for ended connections fails.
    pub fn new(alloc: Global, lines: VecDeque<MemLine, Global>) -> Result<MemDoor, NoMemory>
        requires { All IsFresh lines.items }
        ensures coming { IfOk result (λ door. door.coming ≡ lines) }
        ensures put_in { IfOk result (λ door. door.put_in.lines.value ≡ lines) }
        ensures none_over { IfOk result (λ door. ⟦<MemDoor as Door>⟧.lines_over door ≡ []) }
        ensures inside { IfOk result (λ door. ⟦<MemDoor as Door>⟧.is_out door ≡ false) }
        ensures more { IfOk result (λ door. ⟦<MemDoor as Door>⟧.is_at_end door ≡ false) }
    {
        let put_in = PutIn {
            lines: Snapshot::of(&lines),
        };
        match Vec::with_capacity(alloc, lines.len()) {
            Ok(over) => Ok(MemDoor {
                coming: lines,
                over,
                is_out: false,
                is_at_end: false,
                put_in,
            }),
            Err(_) => Err(NoMemory),
        }
    }

    /// Returns the connections that have ended, in the order in which they were shut, each with its
    /// end.
    pub fn over(&self) -> &[(MemLine, LineEnd)]
        ensures { result.now ≡ self.now.over.items }
    {
        self.over.as_slice()
    }

    /// Returns how many connections are still to come; 0 if the door has ended.
    pub fn left(&self) -> usize
        ensures left { result ≡ length self.now.coming.items }
        ensures end { self.now.is_at_end ≡ true → result ≡ 0 }
    {
        self.coming.len()
    }

    // Opens the next connection. If none is left, the door has ended.
    fn open_next(&mut self) -> Option<MemLine>
        requires more { MayOpen self.old.is_out self.old.is_at_end }
        ensures opened { IsOpened {E = DoorFault} ⟦<MemLine as Line>⟧.seen self.new.is_out self.new.is_at_end (Ok result) }
        ensures over { self.new.over ≡ self.old.over }
        ensures put_in { self.new.put_in ≡ self.old.put_in }
        ensures next { self.old.coming.items ≡ option_to_list result ++ self.new.coming.items }
        ensures last { IsNone result ↔ (self.old.coming.items ≡ []) }
    {
        match self.coming.pop_front() {
            Some(line) => {
                self.is_out = true;
                Some(line)
            }
            None => {
                self.is_at_end = true;
                None
            }
        }
    }
}

impl Door for MemDoor {
    ghost use Rattle.std.proofs.Common.{refl};

    type Line = MemLine;

    ghost is_out = { λ door. door.is_out };

    ghost is_at_end = { λ door. door.is_at_end };

    ghost lines_over = { λ door. map line_over door.over.items };

    // It is the door at which these connections were put in.
    ghost same = { λ first last. last.put_in.lines.value ≡ first.put_in.lines.value };

    // A client in memory may fail.
    ghost may_fail = { λ door. true };

    ghost same_self = { λ door. refl };

    ghost same_streams = { λ first last same. refl };

    fn open(&mut self) -> Result<Option<MemLine>, DoorFault>
        requires more { MayOpen self.old.is_out self.old.is_at_end }
        ensures opened { IsOpened ⟦<MemLine as Line>⟧.seen
            self.new.is_out self.new.is_at_end result }
        ensures sure { ⟦<MemDoor as Door>⟧.may_fail self.old ≡ false → IfOpened result (IsSureLine ⟦<MemLine as Line>⟧.lies_over) }
        ensures over { self.new.over ≡ self.old.over }
        ensures put_in { self.new.put_in ≡ self.old.put_in }
        // The next connection is opened; there is none only if none is left.
        ensures next { IfOk result
            (λ line. self.old.coming.items ≡ option_to_list line ++ self.new.coming.items) }
        ensures last { IfOk result (λ line. IsNone line ↔ (self.old.coming.items ≡ [])) }
        ensures no_fault { IfErr result (λ e. ⊥) }
    {
        Ok(self.open_next())
    }

    // Its connections are never waited for, so nothing is watched.
    fn try_open<W: Watcher>(
        &mut self,
        _may_have_come: bool,
        _watcher: &W,
    ) -> Result<Opening<MemLine>, DoorFault>
        requires more { MayOpen self.old.is_out self.old.is_at_end }
        ensures opened { IsTryOpened ⟦<MemLine as Line>⟧.seen
            self.new.is_out self.new.is_at_end result }
        ensures sure { ⟦<MemDoor as Door>⟧.may_fail self.old ≡ false → IfLine result (IsSureLine ⟦<MemLine as Line>⟧.lies_over) }
        ensures over { self.new.over ≡ self.old.over }
        ensures put_in { self.new.put_in ≡ self.old.put_in }
    {
        match self.open_next() {
            Some(line) => Ok(Opening::Line(line)),
            None => Ok(Opening::NoMore),
        }
    }

    fn shut(&mut self, line: MemLine, end: LineEnd) {
        self.is_out = false;
        self.over.push((line, end)).unwrap();
    }
}
