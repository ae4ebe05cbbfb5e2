//! The ends of the links that have gone.
ghost use Rattle.std.specs.Prelude.{◌≡◌, ◌↔◌, false, true, slice_set};
ghost use Rattle.bq_thread_work.specs.Flags.{AreAllSet};

use bq_job::{Seat, Step};
use std::alloc::Global;

/// A flag for each end that has gone, and whether all have.
#[derive(Drop)]
pub struct GoneEnds {
    pub flags: Vec<bool, Global>,
    pub all: bool,
}

impl GoneEnds {
    ghost use Rattle.bq_thread_work.specs.Worked.{KnowsAll, gone_after};

    /// Returns a value in which no end has gone.
    pub fn none(flags: Vec<bool, Global>) -> GoneEnds
        ensures flags { result.flags ≡ flags }
        ensures all { result.all ≡ false }
    {
        GoneEnds { flags, all: false }
    }

    /// Records an end as gone.
    pub fn mark(&mut self, seat: Seat)
        ensures marked { self.new.flags.items ≡ slice_set self.old.flags.items seat true }
        ensures all { self.new.all ≡ true ↔ AreAllSet self.new.flags.items }
    {
        set_flag(&mut self.flags, seat);
        self.all = are_all_set(self.flags.as_slice());
    }

    /// Records an end as gone if its step says so.
    pub fn mark_if_gone(&mut self, seat: Seat, what: &Step)
        requires known { KnowsAll self.old }
        ensures marked { self.new.flags.items ≡ gone_after seat what.now self.old.flags.items }
        ensures known { KnowsAll self.new }
    {
        if let Step::Gone = what {
            self.mark(seat);
        }
    }
}

fn set_flag(flags: &mut Vec<bool, Global>, seat: Seat)
    ensures { flags.new.items ≡ slice_set flags.old.items seat true }
{
    if let Some(flag) = flags.get_mut(usize::from(seat)) {
        *flag = true;
    }
}

fn are_all_set(flags: &[bool]) -> bool
    ensures { result ≡ true ↔ AreAllSet flags.now }
{
    for place in 0..flags.len() {
        if !flags[place] {
            return false;
        }
    }
    true
}
