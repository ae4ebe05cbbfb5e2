//! Laws of the model: what holds of every step, whichever client takes it.
ghost use Rattle.bq_job.specs.Types.{Answer, Step};
ghost use Rattle.bq_job.specs.declared.step.Step.TheVariants.{Tick};
ghost use Rattle.bq_job.specs.declared.answer.Answer.TheVariants.{Reserved};
ghost use Rattle.bq_job.specs.beside.{ChangesNothing, GivesClient, IsLawful, ample, is_before, is_refusal, next_due, stepped};
ghost use Rattle.bq_job.specs.machine.{DispatchTurn, GivenAnswer, IsStep, Machine.Machine, Outcome, Settings, acted, at_moment};
ghost use Rattle.bq_job.specs.machine.{new_machine};
ghost use Rattle.bq_job.specs.laws.{GetsLeast};
ghost use Rattle.bq_job.specs.promise.{parts_of};
ghost use Rattle.std.specs.Prelude.{ℕ, ◌≡◌, ◌+◌, ◌<◌, ◌≤◌, IsTrue, false, List, [], Some, length};

/// From every model there is a step with enough memory, and it can be computed.
pub fn computed_is_step()
    ensures { (m : Machine) (at seat : ℕ) (what : Step)
        → IsStep m at seat what ample (stepped m at seat what).given (stepped m at seat what).machine }
{}

/// If a turn of dispatch answers RESERVED, the job is the least of those that the client may have,
/// by priority and then by id.
pub fn dispatched_is_least()
    ensures { (m next : Machine) (seat id : ℕ) (body : List ℕ)
        → DispatchTurn m (seat, Reserved id body) next → GetsLeast m seat id body }
{}

/// A new model is lawful.
pub fn new_machine_is_lawful()
    ensures { (settings : Settings) → IsLawful (new_machine settings) }
{}

/// Every step of a lawful model leaves it lawful. So at most one connected client holds a job, and
/// no client waits while a job that it may have is ready.
pub fn steps_keep_lawful()
    ensures { (first last : Machine) (at seat : ℕ) (what : Step) (outcome : Outcome) (given : List GivenAnswer)
        → IsLawful first → IsStep first at seat what outcome given last → IsLawful last }
{}

/// A step gives at most one answer more than there are seats.
pub fn steps_give_few_answers()
    ensures { (first last : Machine) (at seat : ℕ) (what : Step) (outcome : Outcome) (given : List GivenAnswer)
        → IsLawful first → IsStep first at seat what outcome given last
        → length given ≤ first.settings.seats + 1 }
{}

/// What a step gives the client that takes it: answers so far plus the one that it waits for equal
/// the number of its requests other than `quit`, and the answer to a close is the last one.
pub fn steps_give_clients_their_answers()
    ensures { (first last : Machine) (at seat : ℕ) (what : Step) (outcome : Outcome) (given : List GivenAnswer)
        → IsLawful first → seat < first.settings.seats → IsStep first at seat what outcome given last
        → GivesClient seat first what given last }
{}

/// Before the next due moment of a lawful model, or at any moment if nothing is due, a tick gives
/// no answer and changes nothing but the moment.
pub fn nothing_happens_before_it_is_due()
    ensures { (first last : Machine) (at seat : ℕ) (outcome : Outcome) (given : List GivenAnswer)
        → IsLawful first → IsTrue (is_before (at_moment at first).moment (next_due first))
        → IsStep first at seat Tick outcome given last
        → (given ≡ []) × (last ≡ at_moment at first) }
{}

/// A command whose answer says that it was not carried out leaves the model as it was, whichever
/// allocation failed, and no client is served after it.
pub fn refused_commands_change_nothing()
    ensures { (first last : Machine) (at seat : ℕ) (what : Step) (outcome : Outcome) (given : List GivenAnswer) (answer : Answer)
        → IsLawful first → (step : IsStep first at seat what outcome given last)
        → (acted step.memory step.before seat what).answer ≡ Some answer → IsTrue (is_refusal answer)
        → ChangesNothing (parts_of step) seat what answer given last }
{}

/// A step in which no reference to a body was refused has one result: its answers and the model
/// after it are determined, even if the command was skipped for lack of memory.
pub fn steps_have_one_result()
    ensures { (first last other : Machine) (at seat : ℕ) (what : Step) (outcome : Outcome) (given others : List GivenAnswer)
        → outcome.unshared ≡ false
        → IsStep first at seat what outcome given last → IsStep first at seat what outcome others other
        → (given ≡ others) × (last ≡ other) }
{}

/// If no allocation fails, a step is the one that is computed.
pub fn ample_steps_are_computed()
    ensures { (first last : Machine) (at seat : ℕ) (what : Step) (given : List GivenAnswer)
        → IsStep first at seat what ample given last
        → (given ≡ (stepped first at seat what).given) × (last ≡ (stepped first at seat what).machine) }
{}
