//! The control line in a thread of its own, which submits its steps.
ghost use Rattle.std.specs.Prelude.{◌≡◌, ◌++◌, List, Some, true, IfErr};
ghost use Rattle.bq_job.specs.promise.ControlDid.{IsControlDone};
ghost use Rattle.bq_job.specs.declared.step.Step.{Step};
ghost use Rattle.bq_line.specs.ControlRead.{IsOver, IsReadToEnd, SubmitsOn};
ghost use Rattle.bq_line.specs.ControlSeen.{new_control};
ghost use Rattle.bq_line.specs.ControlTold.{HasSubmitted, owed_by};

use crate::control_line::{ControlInput, Heard};
use crate::control_steps::ControlSteps;
use bq_job::Step;
use std::sync::Wait;
use std::thread::Parker;
use std::time::Duration;

/// How long the thread sleeps if the control line has no byte yet and didn't wait for one, in
/// milliseconds.
const LINE_REST: u64 = 10;

/// How long the thread sleeps if there is no room for a step, in milliseconds. Room becomes free
/// soon.
const STEP_REST: u64 = 1;

/// The link through which a control line submits its steps.
pub trait ControlLink {
    /// The core and the link are ready for a call.
    ghost is_ready: { Self → Type 0 };

    /// From the first link, these steps were submitted, and the second link is what remained.
    ghost trace: { Self → List Step → Self → Type 0 };

    /// Submits a step, or returns it if there is no room for it now.
    fn submit(&mut self, step: Step) -> Result<(), Step>
        requires ready { is_ready self.old }
        ensures ready { is_ready self.new }
        ensures back { IfErr result (λ back. back ≡ step) }
        ensures trace { (first : Self) (before : List Step) → trace first before self.old →
            SubmitsOn trace first before step result self.new };
}

/// Reads a control line, of which nothing was read, until it ends or fails. Submits a drain for each
/// line `drain`, and finally that no more come. Returns the input.
#[tactic(auto, using(crate::proofs::ToldLemmas::submitted_on))]
pub fn submit_control<R: Wait, I: ControlInput, K: ControlLink>(rt: &R, input: I, link: &mut K) -> I
    requires new { I.seen input ≡ new_control }
    requires ready { K.is_ready link.old }
    ensures ready { K.is_ready link.new }
    // The input ended or failed; the input itself records which, and after which bytes.
    ensures over { IsOver (I.seen result) }
    ensures read { IsReadToEnd (I.remaining input) (I.remaining result) (I.seen result).text (I.seen result).failed }
    // It failed only if a read of it may fail.
    ensures fault { (I.seen result).failed ≡ true → I.may_fail input ≡ true }
    ensures done { (submitted : List Step) × IsControlDone (I.seen result).text (I.seen result).failed submitted
        × ((first : K) (before : List Step) → K.trace first before link.old → K.trace first (before ++ submitted) link.new) }
{
    let mut steps = ControlSteps::new(input);
    for _ in rt.forever() {
        if let Some(step) = steps.owed() {
            submit_owed(rt, link, &mut steps, step);
        } else if steps.is_over() {
            return steps.input;
        } else if let Heard::NothingYet = steps.read() {
            rest(rt, LINE_REST);
        }
    }
    unreachable!()
}

// Submits the step that a control line owes, or rests if there is no room for it.
#[tactic(auto, using(crate::proofs::ToldLemmas::none_submitted))]
fn submit_owed<R: Wait, I: ControlInput, K: ControlLink>(
    rt: &R,
    link: &mut K,
    steps: &mut ControlSteps<I>,
    step: Step,
)
    requires owed { owed_by steps.old.owes_drain steps.old.stage ≡ Some step }
    requires ready { K.is_ready link.old }
    ensures ready { K.is_ready link.new }
    ensures trace { HasSubmitted I.ControlInput K.trace link.old steps.old link.new steps.new }
{
    match link.submit(step) {
        Ok(()) => steps.note_submitted(),
        Err(back) => {
            drop(back);
            rest(rt, STEP_REST);
        }
    }
}

// Sleeps before a retry. No thread wakes it up.
fn rest<R: Wait>(rt: &R, millis: u64) {
    Parker::new().park_timeout(rt, Duration::from_millis(millis));
}
