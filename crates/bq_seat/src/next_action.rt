//! The place for a seat's next action.
ghost use Rattle.std.specs.Prelude.{◌≡◌, ◌↔◌, IsTrue, false, true};
ghost use Rattle.bq_job.specs.beside.StepBody.{has_body};
ghost use Rattle.bq_job.specs.declared.answer.Answer.{Answer};
ghost use Rattle.bq_job.specs.declared.request.Request.{Request};
ghost use Rattle.bq_job.specs.declared.step.Step.{Step};
ghost use Rattle.bq_seat.specs.NextActions.{IsDoing, OwnNone, OwnsOnlyIts, carries_none, does_of, is_ask, owns_text, plain_action};
ghost use Rattle.bq_seat.specs.SeatParts.{IsTaken, request_of};

use crate::machine::Action;
use bq_job::{Answer, LineEnd, Request, Step};
use bq_wire::{RequestReader, Taken};
use std::alloc::Global;
use std::marker::Model;

/// What an action does, without the step or the answer that it may carry.
#[derive(Clone, Copy)]
pub enum Does {
    /// It submits a step.
    Submit,
    /// It reads from the connection.
    Read,
    /// It checks whether an answer has come.
    PollMail,
    /// It writes an answer.
    Write,
    /// The connection has ended.
    LineOver(LineEnd),
    /// The event did not answer the last action.
    Stray,
}

/// The next action of a seat, with places of their own for its step and its answer. Contracts see it
/// as an `Action`. An `Action` itself is filled with zeros each time that it is replaced, and it is as
/// large as the largest request.
///
/// A step or an answer that the action does not carry owns no memory. So a seat that waits keeps no
/// body, whatever it did last.
#[derive(Drop)]
pub struct NextAction {
    does: Does,
    step: Step,
    answer: Answer,
}

impl Model for NextAction {
    ghost use Rattle.bq_seat.specs.declared.machine.Action.{Action};
    ghost use Rattle.bq_seat.specs.NextActions.{OwnsOnlyIts, action_of};

    ghost Value = { Action };

    ghost view = { λ n. action_of n.does n.step n.answer };

    ghost invariant = { λ n. OwnsOnlyIts n.does n.step n.answer };
}

impl NextAction {
    ghost use Rattle.std.specs.Borrow.{sem};
    ghost use Rattle.bq_seat.specs.LentStep.{LendsStep};

    /// Returns a stray action.
    pub fn new() -> NextAction
        ensures { result ≡ Action.Stray }
    {
        NextAction {
            does: Does::Stray,
            step: Step::Ask(Request::Quit),
            answer: Answer::Closed,
        }
    }

    /// Returns what the action does.
    #[inline(always)]
    pub fn does(&self) -> Does
        ensures does { result ≡ does_of self.now }
        ensures action { IsDoing result self.now }
    {
        self.does
    }

    /// Returns true if the action reads from the connection.
    #[inline(always)]
    pub fn is_read(&self) -> bool
        ensures { IsTrue result ↔ (self.now ≡ Action.Read) }
    {
        matches!(self.does, Does::Read)
    }

    /// Returns the step that the action submits. It has no meaning if the action submits none.
    #[inline(always)]
    pub(crate) fn step(&self) -> &Step
        ensures { (step : Step) → self.now ≡ Action.Submit step → result.now ≡ step }
    {
        &self.step
    }

    /// Lends the step that the action submits.
    #[inline(always)]
    pub fn step_mut(&mut self) -> &mut Step
        requires { (step : Step) × (self.old ≡ Action.Submit step) }
        ensures* writes_back { sem 𝓛 (LendsStep self.entry result) }
        ensures value { self.old ≡ Action.Submit result.now }
    {
        &mut self.step
    }

    /// Returns the answer that the action writes. It has no meaning if the action writes none.
    #[inline(always)]
    pub fn answer(&self) -> &Answer
        ensures { (answer : Answer) → self.now ≡ Action.Write answer → result.now ≡ answer }
    {
        &self.answer
    }

    /// Returns the action. What it does not carry is freed by calls: the code that takes a step and an
    /// answer apart would else be part of each branch, and of what has to be proved of it.
    pub(crate) fn into_action(self) -> Action
        ensures { result ≡ self }
    {
        let NextAction { does, step, answer } = self;
        match does {
            Does::Submit => {
                drop(answer);
                Action::Submit(step)
            }
            Does::Write => {
                drop(step);
                Action::Write(answer)
            }
            _ => {
                drop(step);
                drop(answer);
                plain_action(does)
            }
        }
    }

    /// Writes this answer next. The answer is stored first, so that it is copied once.
    #[inline(always)]
    pub fn write(&mut self, answer: Answer)
        ensures { self.new ≡ Action.Write answer }
    {
        self.answer = answer;
        free_step(&mut self.step);
        self.does = Does::Write;
    }

    /// Submits this step next.
    #[inline(always)]
    pub(crate) fn submit(&mut self, step: Step)
        ensures { self.new ≡ Action.Submit step }
    {
        free(self.does, &mut self.step, &mut self.answer);
        self.step = step;
        self.does = Does::Submit;
    }

    /// Does this next, which needs neither a step nor an answer.
    #[inline(always)]
    pub(crate) fn set(&mut self, does: Does)
        requires { carries_none does ≡ true }
        ensures { self.new ≡ plain_action does }
    {
        free(self.does, &mut self.step, &mut self.answer);
        self.does = does;
    }

    /// Submits a request next. Which one has no meaning yet: if the last step was a request, it stays.
    #[inline(always)]
    pub(crate) fn submit_request(&mut self)
        ensures { self.new ≡ Action.Submit (Step.Ask (request_of self.new)) }
    {
        free(self.does, &mut self.step, &mut self.answer);
        make_ask(&mut self.step);
        self.does = Does::Submit;
    }

    /// Reads the next request from these bytes into the place of the one that the action submits.
    #[inline(always)]
    pub(crate) fn take_request(
        &mut self,
        alloc: Global,
        reader: &mut RequestReader,
        bytes: &[u8],
    ) -> Taken
        requires { self.old ≡ Action.Submit (Step.Ask (request_of self.old)) }
        ensures asks { self.new ≡ Action.Submit (Step.Ask (request_of self.new)) }
        ensures taken { IsTaken reader.old reader.new bytes.now result (request_of self.new) }
    {
        match &mut self.step {
            Step::Ask(place) => reader.take(alloc, bytes, place),
            _ => unreachable!(),
        }
    }
}

// Returns the action that does this, which carries neither a step nor an answer.
fn plain_action(does: Does) -> Action
    requires { carries_none does ≡ true }
    ensures { result ≡ plain_action does }
{
    match does {
        Does::Read => Action::Read,
        Does::PollMail => Action::PollMail,
        Does::LineOver(end) => Action::LineOver(end),
        _ => Action::Stray,
    }
}

// Makes the step a request. Which one has no meaning. Another step is replaced by a call, because the
// caller would otherwise initialize room for a step on every path.
#[inline(always)]
fn make_ask(step: &mut Step)
    requires { has_body step.old ≡ false }
    ensures { is_ask step.new ≡ true }
{
    if !matches!(step, Step::Ask(_)) {
        drop_step(step);
    }
}

// Frees the body of what an action carries that does this.
#[inline(always)]
fn free(does: Does, step: &mut Step, answer: &mut Answer)
    requires { OwnsOnlyIts does step.old answer.old }
    ensures { OwnNone step.new answer.new }
{
    match does {
        Does::Submit => free_step(step),
        Does::Write => free_answer(answer),
        _ => {}
    }
}

// Frees the body of a put. Most steps have none, and stay.
#[inline(always)]
fn free_step(step: &mut Step)
    ensures { has_body step.new ≡ false }
{
    if matches!(step, Step::Ask(Request::Put { .. })) {
        drop_step(step);
    }
}

// Frees the body or the text of an answer. Most answers have none, and stay.
#[inline(always)]
fn free_answer(answer: &mut Answer)
    ensures { owns_text answer.new ≡ false }
{
    if matches!(
        answer,
        Answer::Reserved(..) | Answer::Found(..) | Answer::Ok(_)
    ) {
        drop_answer(answer);
    }
}

#[inline(never)]
fn drop_step(step: &mut Step)
    ensures { step.new ≡ Step.Ask Request.Quit }
{
    *step = Step::Ask(Request::Quit);
}

#[inline(never)]
fn drop_answer(answer: &mut Answer)
    ensures { answer.new ≡ Answer.Closed }
{
    *answer = Answer::Closed;
}
