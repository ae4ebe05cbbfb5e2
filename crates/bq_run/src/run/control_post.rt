//! The control line with its end of the links, for the calling thread.
ghost use Rattle.bq_run.specs.Threads.{IsControlOver, IsNewEndAt};

use bq_host::Member;
use bq_line::control_line::{ControlLine, ControlReader};
use bq_link::{Intake, NoTicks, SeatEnd};
use bq_thread_work::control_work::control_work;
use std::sync::Wait;
use std::thread::Threads;

/// The control line and its new end.
#[derive(Drop)]
pub struct ControlPost<'a, I> {
    pub intake: &'a Intake<NoTicks>,
    pub end: SeatEnd,
    pub control: I,
    ghost new_end: { IsNewEndAt intake.now.id end },
}

impl<'a, I: ControlReader + Drop> Member<(SeatEnd, ControlLine<I>)> for ControlPost<'a, I> {
    ghost gives = { λ post back. IsControlOver I.remaining I.may_fail post.end post.control back.0 back.1 };

    fn serve<R: Threads + Wait>(self, rt: &R) -> (SeatEnd, ControlLine<I>) {
        let ControlPost {
            intake,
            end,
            control,
        } = self;
        control_work(rt, intake, end, control)
    }
}
