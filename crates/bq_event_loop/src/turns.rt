//! The choice of the next action.
ghost use Rattle.std.specs.Prelude.{ℕ, ◌≡◌, ◌<◌, [], Bool, true, false};
ghost use Rattle.bq_event_loop.specs.Known.{AreApart, AreIdle, AreKnown, IsFreeSeat, IsListedIn, IsStillSeat, KeepsAll};
ghost use Rattle.bq_event_loop.specs.Sleeping.{IsAtTurn, stands_of};
ghost use Rattle.bq_event_loop.specs.SoFar.{IsLoopAtTurn, began_with};

use bq_core_api::{Config, QueueCore};
use bq_host::{Hub, Mail, RunFault};
use bq_line::Door;
use bq_line::attendant::{Attendant, Progress};
use bq_line::clock::Clock;
use bq_line::control_line::ControlInput;
use bq_line::control_steps::{ControlSteps, Stage};
use bq_line::line::Line;
use std::alloc::Global;
use std::snapshot::Snapshot;

/// What the loop does next.
#[derive(Clone, Copy)]
pub enum Turn {
    /// Nothing is done.
    Nothing,
    /// This seat acts. If the seat does not exist or is between two connections, nothing is done.
    Serve(usize, Task),
    /// This seat checks for its next connection at its door, without waiting, unless it has one.
    TryOpen(usize),
    /// Sends what the connection of this seat holds back in the expectation of more answers.
    HandOn(usize),
    /// Connections that wait although all seats are taken are closed, if the doors do so.
    TurnAway,
    /// The control line is read.
    Control(ControlReads),
    /// The core takes a tick if something is due, and all answers are delivered to the mail of their
    /// seats. The run ends here if all seats are done and the control line has ended. Otherwise the
    /// loop takes what the system has to report. It sleeps until there is something if nothing can
    /// move.
    Time,
}

/// What a seat does in a turn.
#[derive(Clone, Copy, PartialEq, Eq)]
pub enum Task {
    /// One action. If it submits a step, the seat then checks for the answer too.
    Action,
    /// The same, up to a step: nothing if the seat submits or writes next, or no bytes have come.
    Read,
    /// The same, up to an answer: nothing if the seat writes or reads a command next.
    Step,
    /// A command: the seat reads, submits a step and checks for the answer, and writes the answer.
    /// What the seat doesn't do next is skipped, and the turn ends when nothing moves. Nothing if
    /// no bytes have come.
    Command,
    /// One action if the seat writes.
    Answer,
}

/// What a seat does next.
#[derive(Clone, Copy, PartialEq, Eq)]
pub enum Stands {
    /// It checks for its next connection.
    Between,
    /// Nothing: no more connections come.
    Done,
    /// It reads a command, and no bytes have come as far as its connection knows.
    Awaits,
    /// It reads a command.
    Reads,
    /// It reads while an answer is outstanding.
    ReadsOn,
    /// It checks for the answer to a `reserve` that waits.
    Waits,
    /// It submits a step.
    Submits,
    /// It writes.
    Writes,
    /// It checks for another answer, or its connection ends.
    Other,
}

/// How far the control line is read. Steps that it owes are submitted first.
#[derive(Clone, Copy, PartialEq, Eq)]
pub enum ControlReads {
    /// Up to the end of the buffered bytes. No read blocks.
    Buffered,
    /// One read, which may block, and the bytes that are buffered after it.
    Once,
    /// To its end, however long its reads block.
    ToEnd,
}

/// The state of the control line.
#[derive(Clone, Copy, PartialEq, Eq)]
pub enum ControlStands {
    /// There may be more to read.
    Reads,
    /// It owes a step that was rejected.
    Owes,
    /// It was read to its end, and the end was submitted.
    Over,
}

impl ControlStands {
    /// Returns the state of a control line.
    pub fn of<I>(control: &ControlSteps<I>) -> ControlStands
        ensures { result ≡ stands_of control.now.owes_drain control.now.stage }
    {
        match control.stage {
            Stage::Over => ControlStands::Over,
            Stage::Ended => ControlStands::Owes,
            Stage::Reads => {
                if control.owes_drain {
                    ControlStands::Owes
                } else {
                    ControlStands::Reads
                }
            }
        }
    }
}

/// What has happened since the last turn.
#[derive(Clone, Copy)]
pub struct News {
    /// What the last action of a seat moved, or what was missing.
    pub progress: Progress,
    /// What the seat of the last turn does next.
    pub stands: Stands,
    /// The seat of the last turn if nothing moves at it until its connection is ready or it has
    /// mail.
    pub still: Option<usize>,
    /// In how many milliseconds something is due, as of the last `Turn::Time`. `None` if nothing
    /// is.
    pub due: Option<u64>,
    /// The microseconds that the core's clock showed when it was last read, or 0 if the clock does
    /// not say.
    pub elapsed: u64,
    pub control: ControlStands,
    /// How far the control line is read in this round, if at all, as of the last wait.
    pub reads: Option<ControlReads>,
    /// Whether a client may wait at a door.
    pub may_come: bool,
    /// The seat of the last turn if it checked for a client and found none. It checks again when
    /// one may have come.
    pub free: Option<usize>,
}

/// What a run began with, for the proofs alone: it has no bytes.
#[derive(Drop)]
pub struct Began<D, C, I> {
    pub config: Snapshot<Config>,
    pub doors: Snapshot<Vec<D, Global>>,
    pub clock: Snapshot<C>,
    pub control: Snapshot<I>,
}

/// The seats, the doors, the clock, the control line and the core at a turn, for the proofs alone:
/// it has no bytes.
#[derive(Drop)]
pub struct SoFar<L, D, C, I, K> {
    pub seats: Snapshot<Vec<Attendant<L>, Global>>,
    pub doors: Snapshot<Vec<D, Global>>,
    pub mails: Snapshot<Vec<Mail, Global>>,
    pub clock: Snapshot<C>,
    pub control: Snapshot<I>,
    pub core: Snapshot<K>,
    /// The core with the answers that no seat has taken, and the control line with the steps that
    /// it owes.
    pub whole_core: Snapshot<Hub<C, K>>,
    pub whole_control: Snapshot<ControlSteps<I>>,
}

/// The reason why an order of turns or a sleeper could not be prepared.
#[derive(Clone, Copy)]
pub enum TurnsFault {
    /// Out of memory.
    NoMemory,
    /// The system refused what the sleeper waits with, or to watch a door or the control line with
    /// it.
    Refused,
}

impl TurnsFault {
    /// Returns the error of a run that cannot begin for this reason.
    pub fn as_run_fault(self) -> RunFault
        ensures { result ≡ RunFault.BadConfiguration → ⊥ }
    {
        match self {
            TurnsFault::NoMemory => RunFault::NoMemory,
            TurnsFault::Refused => RunFault::ThreadRefused,
        }
    }
}

/// Chooses the turns of a run: the order in which the seats act. It has no seat, and nothing of the
/// system. So nothing that it chooses makes an answer wrong, and it cannot forget a seat.
pub trait Turns {
    /// How many seats they know.
    ghost seats: { Self → ℕ };

    /// The seats that they let act before they sleep.
    ghost listed: { Self → ℕ → Bool };

    /// The seats that they let check for a client before they sleep, if one may have come.
    ghost tries: { Self → ℕ → Bool };

    /// What is known of the run that these turns are for, by what it began with.
    ghost is_of: { {B : Type 0} → B → Type 0 };

    /// Returns the next turn. All but `news` is passed for the contract alone.
    fn next<
        L: Line + Drop,
        D: Door<Line = L>,
        C: Clock + Drop,
        I: ControlInput + Drop,
        K: QueueCore + Drop,
    >(&mut self, news: &News, began: &Began<D, C, I>, so_far: SoFar<L, D, C, I, K>) -> Turn
        // `began` is what the run of these turns began with.
        requires of_run { is_of (began_with I.ControlInput began.now) }
        // The promise, at this moment: there is one history of all steps so far, the core
        // represents the model after it, and each client has received the bytes that it is owed
        // along it. If its connection is open, it has received a beginning of them.
        requires so_far { IsLoopAtTurn C.Clock L.Line D.Door I.ControlInput K.QueueCore began.now so_far }
        // No seat is forgotten: it acts, or it checks for a client, or nothing moves at it. Each
        // seat that has mail was woken for it. A wait of `news.due` ends in time.
        requires turn { IsAtTurn L.Line K.QueueCore (seats self.old) (listed self.old) (tries self.old)
            so_far.seats.value.items so_far.mails.value.items news.now.due news.now.control
            so_far.whole_core.value so_far.whole_control.value }
        // The seat that checked for a client and found none is between two connections.
        requires free { IsFreeSeat news.now.free so_far.seats.value.items }
        // Nothing moves at the still seat.
        requires still { IsStillSeat L.Line news.now.still so_far.seats.value.items so_far.mails.value.items }
        ensures seats { seats self.new ≡ seats self.old }
        ensures known { AreKnown L.Line (seats self.new) (listed self.new) (tries self.new) []
            so_far.seats.value.items so_far.mails.value.items }
        // Only a seat that is let act does.
        ensures acts { IsListedIn (listed self.new) result };

    /// Reports that a seat has mail, which another seat's step or a tick put there, so that the
    /// seat can act. It is let act then, unless it checks for a client.
    fn wake(&mut self, seat: usize)
        ensures seats { seats self.new ≡ seats self.old }
        ensures woken { seat < seats self.old → (tries self.old seat ≡ true → ⊥) → listed self.new seat ≡ true }
        ensures keeps { KeepsAll (listed self.old) (listed self.new) }
        ensures trying { (other : ℕ) → tries self.new other ≡ tries self.old other }
        ensures apart { AreApart (listed self.old) (tries self.old) → AreApart (listed self.new) (tries self.new) };

    /// Returns true if the loop may sleep: no seat acts before it does, and none checks for a
    /// client that may have come. If it returns false, one does. The loop waits next, or asks the
    /// system what it has to report.
    fn may_sleep(&mut self, may_come: bool) -> bool
        ensures seats { seats self.new ≡ seats self.old }
        ensures listed { (seat : ℕ) → listed self.new seat ≡ listed self.old seat }
        ensures tries { (seat : ℕ) → tries self.new seat ≡ tries self.old seat }
        ensures acts { result ≡ true → (seat : ℕ) → listed self.old seat ≡ false }
        ensures checks { result ≡ true → may_come ≡ true → (seat : ℕ) → tries self.old seat ≡ false }
        ensures busy { result ≡ false → AreIdle may_come (listed self.new) (tries self.new) → ⊥ };
}
