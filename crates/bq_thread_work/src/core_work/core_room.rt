//! What the core's thread needs besides the core and its end of the links.
ghost use Rattle.std.specs.Prelude.{◌≡◌, ◌+◌, IfOk};
ghost use Rattle.bq_thread_work.specs.CoreWork.{IsNewRoom};

use crate::core_work::polling::FEW_LOOKS;
use bq_job::{Answer, NoMemory, Seat};
use std::alloc::Global;
use std::collections::VecDeque;

/// Memory for the core's thread, besides the core and its end: for answers whose rings are full,
/// and for flags of the ends that have gone. It also says how often the thread polls at most.
#[derive(Drop)]
pub struct CoreRoom {
    pub kept: VecDeque<(Seat, Answer), Global>,
    pub aside: VecDeque<(Seat, Answer), Global>,
    pub gone: Vec<bool, Global>,
    pub looks: u32,
}

impl CoreRoom {
    /// Allocates the memory for this many seats and the control line.
    pub fn new(alloc: Global, seats: u16) -> Result<CoreRoom, NoMemory>
        ensures { IfOk result (λ room. IsNewRoom (seats + 1) room) }
    {
        let ends = usize::from(seats) + 1;
        let Ok(kept) = VecDeque::with_capacity(alloc, ends) else {
            return Err(NoMemory);
        };
        let Ok(aside) = VecDeque::with_capacity(alloc, ends) else {
            drop(kept);
            return Err(NoMemory);
        };
        let Ok(gone) = Vec::from_elem(alloc, false, ends) else {
            drop(kept);
            drop(aside);
            return Err(NoMemory);
        };
        Ok(CoreRoom {
            kept,
            aside,
            gone,
            looks: FEW_LOOKS,
        })
    }

    /// Returns the same room for a thread that polls up to this many times before it sleeps.
    pub fn with_looks(self, looks: u32) -> CoreRoom
        ensures { result ≡ record self { looks = looks } }
    {
        CoreRoom { looks, ..self }
    }
}
