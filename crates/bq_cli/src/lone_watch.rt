//! The system as an event loop sees it that has no other thread beside it.
ghost use Rattle.std.specs.Prelude.{◌≤◌};
ghost use Rattle.bq_event_loop.specs.Sleeping.{IsNoLonger, is_awaited};

use crate::descriptors::{STANDARD_INPUT, end_standard_input};
use crate::ending::Ending;
use bq_core_api::QueueCore;
use bq_event_loop::{
    ControlReads, ControlStands, Doors, Report, Row, Sleeper, SoFar, Turns, TurnsFault, Watch,
};
use bq_host::Mail;
use bq_line::Door;
use bq_line::clock::Clock;
use bq_line::control_line::ControlInput;
use bq_line::line::Line;
use std::alloc::Global;
use std::io::Eprint;
use std::net::Net;
use std::os::fd::RawFd;
use std::{io, rt};

/// How soon a report is tried again that standard error did not take, in milliseconds.
const AGAIN: u64 = 100;

/// The system by epoll for an event loop, which does itself what other threads do for a server by
/// threads:
///
/// - When the last door has failed, the control line ends too, since no client will come whom it
///   concerns. So the loop ends by itself. The control line has to be the standard input.
/// - Reports that standard error did not take are tried again.
#[derive(Drop)]
pub struct LoneWatch<'e, 'r, R> {
    rt: &'r R,
    watch: Watch<'r, R>,
    ending: &'e Ending,
    // The descriptor of the control line.
    source: Option<RawFd>,
}

impl<'e, 'r, R: Net> LoneWatch<'e, 'r, R> {
    /// Returns what watches these doors. The descriptor is that of the control line. The errors are
    /// those of `Watch::new`.
    pub fn new<L: Line + Drop, D: Door<Line = L>>(
        rt: &'r R,
        alloc: Global,
        doors: &[D],
        ending: &'e Ending,
        source: Option<RawFd>,
    ) -> Result<LoneWatch<'e, 'r, R>, TurnsFault> {
        match Watch::new(rt, alloc, doors, source) {
            Ok(watch) => Ok(LoneWatch {
                rt,
                watch,
                ending,
                source,
            }),
            Err(fault) => Err(fault),
        }
    }
}

impl<'e, 'r, R> LoneWatch<'e, 'r, R> {
    // Returns true if the last door has failed and the control line has not ended. The next read of
    // it meets its end.
    fn ends_control(&self, control: ControlStands) -> bool {
        if !self.ending.doors().have_failed() || control == ControlStands::Over {
            return false;
        }
        if self.source != Some(STANDARD_INPUT) {
            return false;
        }
        end_standard_input();
        true
    }
}

impl<'e, 'r, R: Eprint> LoneWatch<'e, 'r, R> {
    // Tries reports again that wait. Returns true if they still do. Mostly there are none, which is
    // tested where it is called.
    #[inline(always)]
    fn keeps_reports(&self) -> bool {
        self.ending.has_reports() && self.keeps_reports_again()
    }

    #[inline(never)]
    fn keeps_reports_again(&self) -> bool {
        let _told = eprint!(self.rt; "");
        self.ending.has_reports()
    }

    // Tries reports again that wait. While they do, the loop does not sleep for long.
    fn with_reports(&self, most: Option<u64>) -> Option<u64>
        ensures { IsNoLonger result most }
    {
        if self.keeps_reports() {
            return sooner(most);
        }
        most
    }
}

impl<'e, 'r, R: rt::Clock + Eprint> Sleeper for LoneWatch<'e, 'r, R> {
    type System = R;

    ghost awaits_control = { λ lone. is_awaited lone.watch.control };

    fn system(&self) -> &R {
        self.rt
    }

    fn watch(&self, fd: RawFd, seat: usize) -> io::Result<()> {
        self.watch.watch(fd, seat)
    }

    fn control_reads(&self, stands: ControlStands) -> Option<ControlReads> {
        if self.ends_control(stands) {
            return Some(ControlReads::Once);
        }
        self.watch.control_reads(stands)
    }

    fn watch_control(&mut self, stands: ControlStands) {
        self.watch.watch_control(stands);
    }

    #[tactic(auto, using(crate::proofs::WaitLemmas::no_longer))]
    fn sleep<
        T: Turns,
        L: Line + Drop,
        D: Door<Line = L>,
        C: Clock + Drop,
        I: ControlInput + Drop,
        K: QueueCore + Drop,
    >(
        &mut self,
        turns: &T,
        row: &Row<L, D>,
        mails: &Vec<Mail, Global>,
        so_far: &SoFar<L, D, C, I, K>,
        doors: &Doors,
        due: Option<u64>,
        most: Option<u64>,
    ) {
        let most = self.with_reports(most);
        self.watch
            .sleep(turns, row, mails, so_far, doors, due, most);
    }

    fn ask<T: Turns>(
        &mut self,
        turns: &T,
        doors: &Doors,
        due: Option<u64>,
        stands: ControlStands,
        reads: Option<ControlReads>,
    ) {
        let _keeps = self.keeps_reports();
        self.watch.ask(turns, doors, due, stands, reads);
    }

    fn reports(&self) -> usize {
        self.watch.reports()
    }

    fn report(&mut self, number: usize) -> Report {
        self.watch.report(number)
    }
}

// Returns a wait that is no longer than this one, and short.
fn sooner(most: Option<u64>) -> Option<u64>
    ensures { IsNoLonger result most }
{
    match most {
        None => Some(AGAIN),
        Some(most) => Some(shorter(most)),
    }
}

fn shorter(most: u64) -> u64
    ensures { result ≤ most }
{
    if most < AGAIN { most } else { AGAIN }
}
