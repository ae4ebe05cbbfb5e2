//! The clock of a server that reports notices to its operator.
ghost use Rattle.std.specs.Prelude.{◌≡◌, ◌++◌, []};
ghost use Rattle.std.proofs.Common.{append-nil, sym};

use bq_job::Moment;
use bq_line::clock::{Clock, MachineClock, Notice};
use bq_program::{LogForm, Severity};
use std::io::Eprint;
use std::rt;

/// The computer's clock. The notices of a run go to standard error, a line each.
#[derive(Drop)]
pub struct TellingClock<'r, R> {
    rt: &'r R,
    clock: MachineClock<&'r R>,
    form: LogForm,
}

impl<'r, R: rt::Clock> TellingClock<'r, R> {
    /// Makes a clock that reads 0 now. Its notices have this form.
    pub fn new(rt: &'r R, form: LogForm) -> TellingClock<'r, R>
        ensures { result.clock.given ≡ [] }
    {
        TellingClock {
            rt,
            clock: MachineClock::new(rt),
            form,
        }
    }
}

impl<'r, R: rt::Clock + Eprint> Clock for TellingClock<'r, R> {
    ghost given = { λ before readings after. after.clock.given ≡ before.clock.given ++ readings };

    ghost none_given = { λ clock. sym (append-nil clock.clock.given) };

    fn now(&mut self) -> Option<Moment> {
        self.clock.now()
    }

    fn elapsed(&self) -> u64 {
        self.clock.elapsed()
    }

    fn tell(&self, notice: Notice) {
        // If standard error is closed, there is no reader.
        let first = self.form.prefix(severity_of(notice));
        let _told = eprintln!(self.rt; "{first}bqd: {}", text_of(notice));
    }
}

fn severity_of(notice: Notice) -> Severity {
    match notice {
        Notice::Draining | Notice::BelowJobLimit => Severity::Info,
        Notice::MemoryRefused | Notice::JobLimitReached => Severity::Warning,
    }
}

fn text_of(notice: Notice) -> &'static str {
    match notice {
        Notice::Draining => "draining",
        Notice::MemoryRefused => "memory was refused: clients are answered OUT_OF_MEMORY",
        Notice::JobLimitReached => {
            "the limit of --max-jobs is reached: puts are answered OUT_OF_MEMORY"
        }
        Notice::BelowJobLimit => "the number of jobs is below the limit of --max-jobs again",
    }
}
