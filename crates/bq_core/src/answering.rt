//! Appends answers. A function that makes an answer initializes room for it before it begins, whichever
//! branch it takes. So each of these is a function of its own, and is not inlined.
ghost use Rattle.std.specs.Prelude.{length, true, ◌<◌, ◌≡◌};
ghost use Rattle.bq_core.specs.Acting.{with_answer};
ghost use Rattle.bq_job.specs.declared.answer.Answer.TheVariants as answers;

use bq_core_api::Outs;
use bq_job::{Answer, Body, JobId, Seat};

/// A job was put, and got this id.
#[inline(never)]
pub(crate) fn inserted(outs: &mut Outs, seat: Seat, id: JobId)
    requires { length outs.old.given < outs.old.most }
    ensures { outs.new ≡ with_answer seat (answers.Inserted id) outs.old }
{
    outs.push(seat, Answer::Inserted(id));
}

/// The client is handed this job, with this reference to its body.
#[inline(never)]
pub(crate) fn reserved(outs: &mut Outs, seat: Seat, id: JobId, body: Body)
    requires { length outs.old.given < outs.old.most }
    ensures { outs.new ≡ with_answer seat (answers.Reserved id body) outs.old }
{
    outs.push(seat, Answer::Reserved(id, body));
}

/// The job was deleted.
#[inline(never)]
pub(crate) fn deleted(outs: &mut Outs, seat: Seat)
    requires { length outs.old.given < outs.old.most }
    ensures { outs.new ≡ with_answer seat answers.Deleted outs.old }
{
    outs.push(seat, Answer::Deleted);
}

/// There is no such job.
#[inline(never)]
pub(crate) fn not_found(outs: &mut Outs, seat: Seat)
    requires { length outs.old.given < outs.old.most }
    ensures { outs.new ≡ with_answer seat answers.NotFound outs.old }
{
    outs.push(seat, Answer::NotFound);
}

/// No put is accepted.
#[inline(never)]
pub(crate) fn draining(outs: &mut Outs, seat: Seat)
    requires { length outs.old.given < outs.old.most }
    ensures { outs.new ≡ with_answer seat answers.Draining outs.old }
{
    outs.push(seat, Answer::Draining);
}

/// The job limit is reached, or memory was missing.
#[inline(never)]
pub(crate) fn out_of_memory(outs: &mut Outs, seat: Seat)
    requires { length outs.old.given < outs.old.most }
    ensures { outs.new ≡ with_answer seat answers.OutOfMemory outs.old }
{
    outs.push(seat, Answer::OutOfMemory);
}

/// An allocation failed, so the command was skipped.
#[inline(never)]
pub(crate) fn left_out(outs: &mut Outs, seat: Seat)
    requires { length outs.old.given < outs.old.most }
    ensures { outs.new
        ≡ record (with_answer seat answers.OutOfMemory outs.old) { left_out = true } }
{
    outs.set_left_out();
    out_of_memory(outs, seat);
}

/// A body could not be shared, so the command was skipped.
#[inline(never)]
pub(crate) fn unshared(outs: &mut Outs, seat: Seat)
    requires { length outs.old.given < outs.old.most }
    ensures { outs.new
        ≡ record (with_answer seat answers.OutOfMemory outs.old) { unshared = true } }
{
    outs.set_unshared();
    out_of_memory(outs, seat);
}
