ghost use Rattle.std.specs.Prelude.{◌≡◌, IfOk, IsErr, IsTrue};
ghost use Rattle.bq_job.specs.beside.StepBody.{has_body};

use super::{NoMemory, Request};

/// An event at a seat, the input of the core.
#[derive(Drop)]
pub enum Step {
    /// A client connected.
    Connect,
    /// The client sent a request.
    Ask(Request),
    /// The client sends no more.
    End,
    /// The connection was closed.
    Close,
    /// From now on the core accepts no put.
    Drain,
    /// Time passed.
    Tick,
    /// The seat will get no further connection.
    Gone,
}

impl Step {
    /// Returns a copy of the step that shares a put's body. It allocates nothing, and fails only if
    /// `Arc` refuses another reference to that body.
    pub fn share(&self) -> Result<Step, NoMemory>
        ensures same { IfOk result (λ step. step ≡ self.now) }
        ensures refused { IsErr result → IsTrue (has_body self.now) }
    {
        Ok(match self {
            Step::Connect => Step::Connect,
            Step::Ask(request) => Step::Ask(request.share()?),
            Step::End => Step::End,
            Step::Close => Step::Close,
            Step::Drain => Step::Drain,
            Step::Tick => Step::Tick,
            Step::Gone => Step::Gone,
        })
    }
}
