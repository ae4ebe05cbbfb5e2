//! The system, as a loop sees it: what it reports, and the one call that may wait.
ghost use Rattle.std.specs.Prelude.{◌≡◌, ℕ, [], Bool, true, false, None, Some};
ghost use Rattle.bq_event_loop.specs.Known.{AreStill};
ghost use Rattle.bq_event_loop.specs.Reports.{may_come, rests};
ghost use Rattle.bq_event_loop.specs.Sleeping.{HasWork, IsNoLonger, MayWait, stands_of};

use crate::doors::Doors;
use crate::row::Row;
use crate::turns::{ControlReads, ControlStands, SoFar, Turns};
use bq_core_api::QueueCore;
use bq_host::Mail;
use bq_line::Door;
use bq_line::clock::Clock;
use bq_line::control_line::ControlInput;
use bq_line::line::{Line, Readiness};
use std::alloc::Global;
use std::os::fd::RawFd;
use std::{io, rt};

/// Something that the system reported.
#[derive(Clone, Copy)]
pub enum Report {
    /// The connection of this seat is ready.
    Line(usize, Readiness),
    /// A client may have connected.
    Doors,
    /// Nothing that concerns the loop.
    Nothing,
}

/// Waits for the system. The loop waits by `sleep` alone, so it can wait only while nothing moves
/// at any seat. It asks without waiting only if something is left to be done.
pub trait Sleeper {
    /// The clock by which a shortage of resources is waited out.
    type System: rt::Clock;

    /// The control line has ended, or the system reports when there is more of it.
    ghost awaits_control: { Self → Bool };

    /// Returns the clock of the system.
    fn system(&self) -> &Self::System;

    /// Has the system report when this descriptor, that of the connection of this seat, is ready.
    /// After an error the system reports nothing of it.
    fn watch(&self, fd: RawFd, seat: usize) -> io::Result<()>;

    /// Returns how far the control line is read in this round, if at all.
    fn control_reads(&self, stands: ControlStands) -> Option<ControlReads>
        ensures { result ≡ None → awaits_control self.now ≡ true };

    /// Has the system report when there is more of the control line, which was read.
    fn watch_control(&mut self, stands: ControlStands);

    /// Waits until the system reports something, at most this many milliseconds if there is a
    /// limit. `due` is in how many milliseconds something is due. All but `most` is passed for the
    /// contract alone.
    fn sleep<
        T: Turns,
        L: Line + Drop,
        D: Door<Line = L>,
        C: Clock + Drop,
        I: ControlInput + Drop,
        K: QueueCore + Drop,
    >(
        &mut self,
        turns: &T,
        row: &Row<L, D>,
        mails: &Vec<Mail, Global>,
        so_far: &SoFar<L, D, C, I, K>,
        doors: &Doors,
        due: Option<u64>,
        most: Option<u64>,
    )
        // Nothing moves at any seat: its next action would move nothing, or it checks for a client,
        // and none can have come.
        requires seats { AreStill L.Line (may_come doors.now) row.now.seats.items mails.now.items }
        requires mails { mails.now.items ≡ so_far.now.whole_core.value.mails.items }
        // No seat is left to be visited, and no connection is left to be closed.
        requires unvisited { (seat : ℕ) → T.listed turns.now seat ≡ false }
        requires away { doors.now.are_more_away ≡ false }
        // No seat has mail for which it was not woken.
        requires woken { so_far.now.whole_core.value.wake_queue.waiting ≡ [] }
        // All answers are in the mail of their seats, and the next due moment is not missed.
        requires due { MayWait K.QueueCore due so_far.now.whole_core.value }
        requires limit { IsNoLonger most due }
        requires rest { rests doors.now.rest ≡ true → IsNoLonger most (Some 100) }
        // The control line owes nothing, and the system reports when there is more of it.
        requires control { awaits_control self.old ≡ true }
        requires owes { stands_of so_far.now.whole_control.value.owes_drain so_far.now.whole_control.value.stage ≡ ControlStands.Owes → ⊥ };

    /// Asks the system what it has to report, without waiting. The loop does so only if something
    /// is left to be done, so it does not ask again and again. `due` is as in `sleep`, and `reads`
    /// is how far the control line, which stands so, is read. All is passed for the contract alone.
    fn ask<T: Turns>(
        &mut self,
        turns: &T,
        doors: &Doors,
        due: Option<u64>,
        stands: ControlStands,
        reads: Option<ControlReads>,
    )
        // A seat acts, or checks for a client that may have come, connections are left to be
        // closed, something is due now, or the control line owes a step or is read.
        requires work { HasWork (may_come doors.now) (T.listed turns.now) (T.tries turns.now) doors.now.are_more_away
            due stands reads };

    /// Returns how many reports the last wait or question gave.
    fn reports(&self) -> usize;

    /// Returns the report with this number, and notes it if it is one of the control line.
    fn report(&mut self, number: usize) -> Report;
}
