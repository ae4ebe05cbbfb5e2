//! The visits of a round: the actions that a visited seat does without waiting, before other seats
//! have their turn.
ghost use Rattle.std.specs.Prelude.{◌≡◌, ◌-◌, ◌||◌, nat_lt, not, true, false, IsNone};
ghost use Rattle.bq_event_loop.specs.Visits.{actions_of, cost_of, left_after, only_writes, task_in, turn_of};

use crate::turns::{Stands, Task, Turn};
use bq_line::attendant::Progress;

/// The largest number of actions in a visit. A batch of commands that came together is mostly served
/// in one visit: where a visit is cut short, its connection sends what it holds back, and the system
/// is asked about all connections.
const MOST: u32 = 128;

/// A visit begins no further command once its commands have taken this many microseconds. How long
/// a command takes is known when the next one takes its step, and the last one is taken to be as
/// long as the one before it. So a visit serves at most two commands of half this time or more.
const LONGEST: u64 = 200;

/// How many actions a turn for a whole command counts as, so that a visit serves 64 commands that
/// came together.
const COMMAND: u32 = 2;

/// A part of the visits of a round.
#[derive(Clone, Copy)]
pub enum Part {
    /// Connections are read, each up to a step.
    Reads,
    /// Steps are taken, each up to an answer.
    Steps,
    /// Answers are written, and each seat acts for as long as it can.
    Answers,
}

impl Part {
    /// Returns the first part of a round with this many visits. A single visit is made in one go.
    pub fn first(visits: usize) -> Part {
        if visits > 1 {
            Part::Reads
        } else {
            Part::Answers
        }
    }

    /// Returns the part after this one, if there is one.
    pub fn next(self) -> Option<Part> {
        match self {
            Part::Reads => Some(Part::Steps),
            Part::Steps => Some(Part::Answers),
            Part::Answers => None,
        }
    }
}

/// How much a visit may do.
#[derive(Clone, Copy)]
pub enum VisitLimit {
    /// Up to 64 commands, until they have taken long.
    Commands,
    /// A single command.
    OneCommand,
    /// The rest of an answer: no command begins.
    OneAnswer,
}

/// The reason why a visit pauses.
#[derive(Clone, Copy)]
pub enum Pause {
    /// This part of the visit is done.
    PartDone,
    /// Nothing moved, and what its connection held back was sent. The system is asked before the
    /// seat is visited again.
    Stuck,
    /// It can act again at once.
    GoesOn,
    /// Its connection has ended, and it checks for the next one.
    IsFree,
}

/// A visit that is under way.
#[derive(Clone, Copy)]
pub struct Visit {
    seat: usize,
    part: Part,
    // How many more actions it may do.
    left: u32,
    // How many more microseconds its commands may take.
    time: u64,
    // Whether it begins no further command.
    is_over: bool,
    // The result of its last action, and how many of its last actions moved nothing.
    last: Progress,
    unmoved: u32,
}

impl Visit {
    /// Returns a visit of this seat that begins.
    pub fn new(seat: usize, part: Part, limit: VisitLimit) -> Visit
        ensures seat { result.seat ≡ seat }
        ensures part { result.part ≡ part }
        ensures left { result.left ≡ actions_of limit }
        ensures time { result.time ≡ 200 }
        ensures over { result.is_over ≡ only_writes limit }
    {
        let (left, is_over) = match limit {
            VisitLimit::Commands => (MOST, false),
            VisitLimit::OneCommand => (COMMAND, false),
            VisitLimit::OneAnswer => (MOST, true),
        };
        Visit {
            seat,
            part,
            left,
            time: LONGEST,
            is_over,
            last: Progress::Moved,
            unmoved: 0,
        }
    }

    /// Returns the seat that is visited.
    pub fn seat(&self) -> usize
        ensures { result ≡ self.now.seat }
    {
        self.seat
    }

    /// Returns the next turn of its seat. In the last part of a round it is a whole command. If no
    /// further command begins, it is one action, which writes the rest of an answer.
    pub fn turn(&self) -> Turn
        ensures { result ≡ turn_of self.now }
    {
        let task = match self.part {
            Part::Reads => Task::Read,
            Part::Steps => Task::Step,
            Part::Answers => {
                if self.is_over {
                    Task::Answer
                } else {
                    Task::Command
                }
            }
        };
        Turn::Serve(self.seat, task)
    }

    /// Notes another turn: the result of its last action, and how many microseconds the command
    /// before took, if that became known. A part of a long answer ends the visit.
    pub fn note(&mut self, progress: Progress, took: u64)
        ensures seat { self.new.seat ≡ self.old.seat }
        ensures part { self.new.part ≡ self.old.part }
        ensures left { self.new.left ≡ left_after progress (cost_of self.old.part) self.old.left }
        ensures time { self.new.time ≡ self.old.time - took }
        // It is over if it was before, or if a further command that takes as long would be too long.
        ensures over { self.new.is_over ≡ (self.old.is_over || not (nat_lt took (self.old.time - took))) }
    {
        self.left = match progress {
            Progress::Part => 0,
            _ => self.left.saturating_sub(match self.part {
                Part::Answers => COMMAND,
                Part::Reads | Part::Steps => 1,
            }),
        };
        self.time = self.time.saturating_sub(took);
        self.is_over = self.is_over || self.time <= took;
        self.last = progress;
        self.unmoved = if progress.has_moved() {
            0
        } else {
            self.unmoved.saturating_add(1)
        };
    }

    /// Returns the reason for a pause, or `None` if the visit goes on: some actions are left, and
    /// in the last part it begins no further command once it is over.
    pub fn pause(&self, stands: Stands) -> Option<Pause>
        ensures left { IsNone result → self.now.left ≡ 0 → ⊥ }
        ensures over { IsNone result → self.now.part ≡ Part.Answers → self.now.is_over ≡ true → stands ≡ Stands.Writes }
    {
        match self.part {
            Part::Answers => self.end(stands),
            part => self.end_of_part(part, stands),
        }
    }

    fn end_of_part(&self, part: Part, stands: Stands) -> Option<Pause>
        ensures left { IsNone result → self.now.left ≡ 0 → ⊥ }
    {
        if self.left == 0 || self.is_stuck() || ends_part(part, stands) {
            Some(Pause::PartDone)
        } else {
            None
        }
    }

    // The same in the last part, in which the visit may do everything.
    fn end(&self, stands: Stands) -> Option<Pause>
        ensures left { IsNone result → self.now.left ≡ 0 → ⊥ }
        ensures over { IsNone result → self.now.is_over ≡ true → stands ≡ Stands.Writes }
    {
        match stands {
            Stands::Between => Some(Pause::IsFree),
            Stands::Done | Stands::Awaits => Some(Pause::Stuck),
            _ => {
                if self.is_stuck() {
                    Some(Pause::Stuck)
                } else if self.left == 0 || self.is_over && stands != Stands::Writes {
                    Some(Pause::GoesOn)
                } else {
                    None
                }
            }
        }
    }

    // Returns true if nothing moves now. A seat whose answer is outstanding alternately polls its
    // mail and reads: if neither moves anything, it is stuck.
    fn is_stuck(&self) -> bool {
        match self.last {
            Progress::Moved | Progress::Part => false,
            Progress::NotAccepted | Progress::NoRoom => true,
            Progress::NoMail | Progress::NoBytes | Progress::NothingToDo => self.unmoved > 1,
        }
    }
}

// Returns true if a part that is not the last ends before the next action.
fn ends_part(part: Part, stands: Stands) -> bool {
    match stands {
        Stands::Between | Stands::Done | Stands::Awaits | Stands::Writes => true,
        Stands::Submits => matches!(part, Part::Reads),
        Stands::Reads => !matches!(part, Part::Reads),
        Stands::ReadsOn | Stands::Waits | Stands::Other => false,
    }
}
