//! A bell for each seat of a run. A bell wakes the thread of its seat.
ghost use Rattle.std.specs.Prelude.{◌≡◌, [], IfOk, vec_len};
ghost use Rattle.bq_lock.specs.Rung.{AreRung, others};

use crate::bell::Bell;
use arrayvec::ArrayVec;
use bq_job::{NoMemory, Seat};
use std::alloc::Global;
use std::sync::Wait;
use std::time::Duration;

/// The number of seats that can be listed one by one to be woken.
const FEW: usize = 8;

/// The seats whose bells have to be rung.
#[derive(Drop)]
pub enum Rings {
    /// These seats, at most eight.
    Few(ArrayVec<Seat, FEW>),
    /// All seats of the run.
    All,
}

impl Rings {
    /// Returns no seats.
    pub fn none() -> Rings
        ensures { AreRung [] result }
    {
        Rings::Few(ArrayVec::new())
    }

    /// Returns these seats without the thread's own.
    #[tactic(auto, using(crate::proofs::RungLemmas::more_others))]
    pub fn but_own(seats: &[Seat], own: Seat) -> Rings
        ensures { AreRung (others own seats.now) result }
    {
        let mut few = ArrayVec::new();
        for place in 0..seats.len() {
            let seat = seats[place];
            if seat != own {
                if few.is_full() {
                    return Rings::All;
                }
                few.push(seat);
            }
        }
        Rings::Few(few)
    }
}

/// A bell for each seat, which threads share.
#[derive(Drop)]
pub struct Bells {
    bells: Vec<Bell, Global>,
}

impl Bells {
    /// Allocates a bell for each of this many seats.
    pub fn new(alloc: Global, seats: u16) -> Result<Bells, NoMemory>
        ensures { IfOk result (λ bells. vec_len bells.bells ≡ seats) }
    {
        let Ok(mut bells) = Vec::with_capacity(alloc, usize::from(seats)) else {
            return Err(NoMemory);
        };
        for _ in 0..seats {
            bells.push_reserved(Bell::new());
        }
        Ok(Bells { bells })
    }

    /// Rings the bells of these seats. A seat without a bell is skipped.
    pub fn ring(&self, rings: &Rings) {
        match rings {
            Rings::Few(seats) => {
                for seat in seats.as_slice() {
                    if let Some(bell) = self.bells.get(usize::from(*seat)) {
                        bell.ring();
                    }
                }
            }
            Rings::All => {
                for bell in self.bells.as_slice() {
                    bell.ring();
                }
            }
        }
    }

    /// Waits until the bell of a seat is rung, or until the time has passed, and returns whether it
    /// was rung. It may return early for no reason, and does so if the seat has no bell.
    pub fn wait<R: Wait>(&self, rt: &R, seat: Seat, most: Duration) -> bool {
        match self.bells.get(usize::from(seat)) {
            Some(bell) => bell.wait(rt, most),
            None => false,
        }
    }
}
