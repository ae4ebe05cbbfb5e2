//! Laws about clients: which answers a step gives each client, and what a whole run did.
ghost use Rattle.std.specs.Prelude.{ℕ, Bool, List, Option, [], ◌∷◌, ◌++◌, ◌≡◌, ◌≢◌, ◌<◌, true};
ghost use Rattle.bq_job.specs.Types.{Answer, Request, Step};
ghost use Rattle.bq_job.specs.declared.step.Step.TheVariants.{Ask};
ghost use Rattle.bq_job.specs.machine.{GivenAnswer, IsStep, Machine.Machine, Outcome, Settings, is_connected_at};
ghost use Rattle.bq_job.specs.promise.{Entry, IsHistoryOf, IsHistoryOfLine, IsRun, LineOver, answers_to};
ghost use Rattle.bq_job.specs.beside.{AreLinesServed, GetsAtMost, GetsWhatWaits, IsJoined, IsLawful, IsLineJoined, IsLineServed};
ghost use Rattle.bq_job.specs.laws.{AreJobsServedIn, HeadlineHolds, LineHeadlineHolds};

/// A step at another seat gives a client at most the answer that it waits for, and nothing else.
pub fn others_give_what_waits()
    ensures { (first last : Machine) (at seat client : ℕ) (what : Step) (outcome : Outcome) (given : List GivenAnswer)
        → seat ≢ client → IsStep first at seat what outcome given last
        → GetsWhatWaits first last client (answers_to client given) }
{}

/// A request of a connected client, even of one that still waits, gives it at most the answer that
/// it waits for and one more.
pub fn asks_give_at_most()
    ensures { (first last : Machine) (at seat : ℕ) (request : Request) (outcome : Outcome) (given : List GivenAnswer)
        → IsLawful first → seat < first.settings.seats → is_connected_at seat first ≡ true
        → IsStep first at seat (Ask request) outcome given last
        → GetsAtMost first last seat request (answers_to seat given) }
{}

/// A step keeps the settings.
pub fn steps_keep_settings()
    ensures { (first last : Machine) (at seat : ℕ) (what : Step) (outcome : Outcome) (given : List GivenAnswer)
        → IsStep first at seat what outcome given last → last.settings ≡ first.settings }
{}

/// If the records of the seats, the core and the control line each hold by themselves and fit
/// together, they form one history in which every client received exactly the bytes that it was
/// owed.
pub fn parts_join()
    ensures { (settings : Settings) (doors : List (List LineOver)) (control : List ℕ) (failed : Bool)
        (readings : List (Option ℕ)) (history : List Entry) (given : List GivenAnswer) (last : Machine)
        → IsJoined settings doors control failed readings history given last
        → IsHistoryOf settings doors control failed readings last }
{}

/// The same for a lone connection.
pub fn line_joins()
    ensures { (settings : Settings) (seat : ℕ) (line : LineOver) (readings : List (Option ℕ))
        (history : List Entry) (given : List GivenAnswer) (last : Machine)
        → IsLineJoined settings seat line readings history given last
        → IsHistoryOfLine settings seat line readings }
{}

/// If one more connection is served after the connections so far, all of them together are served.
#[tactic(auto, using(crate::proofs::JoinLemmas::lines_more))]
pub fn one_line_more()
    ensures { (max_job_size : ℕ) (lines : List LineOver) (line : LineOver) (submitted more : List Step) (taken got : List Answer)
        → AreLinesServed max_job_size lines submitted taken → IsLineServed max_job_size line more got
        → AreLinesServed max_job_size (lines ++ line ∷ []) (submitted ++ more) (taken ++ got) }
{}

/// The headline as a whole, for a run over doors and for a lone connection. If a run left a history
/// of all clients' steps, the model with one plain list of jobs takes that history in one run, and
/// every client received exactly the bytes of its answers. In that run each job that is handed out
/// is the least one that the client may have; an undisturbed job is handed out at most once and in
/// order; no job is lost before its deletion; at most one client holds a job; and while draining no
/// put is accepted. The clause `jobs` says so of the very run that it is given.
#[tactic(auto, using(crate::proofs::HeadlineLemmas::headline_holds, crate::proofs::HeadlineLemmas::line_headline_holds))]
pub fn the_headline()
    ensures run { (settings : Settings) (doors : List (List LineOver)) (control : List ℕ) (failed : Bool)
        (readings : List (Option ℕ)) (last : Machine)
        → IsHistoryOf settings doors control failed readings last
        → HeadlineHolds settings doors control failed readings last }
    ensures jobs { (settings : Settings) (readings : List (Option ℕ)) (history : List Entry) (given : List GivenAnswer)
        (last : Machine) → (run : IsRun settings readings history given last) → AreJobsServedIn run }
    ensures line { (settings : Settings) (seat : ℕ) (line : LineOver) (readings : List (Option ℕ))
        → IsHistoryOfLine settings seat line readings
        → LineHeadlineHolds settings seat line readings }
{}
