//! What a loop does after a turn: it tries doors, and it waits for the system.
ghost use Rattle.std.specs.Prelude.{◌≡◌, ◌⊎◌, ℕ, [], true, false, None, Some};
ghost use Rattle.bq_event_loop.specs.Known.{ChangesOnly, IsFreeSeat, IsListedIn, IsStillSeat, KeepsAll};
ghost use Rattle.bq_event_loop.specs.KnownTurns.{AreKnownBy, IsAtTurnOf};
ghost use Rattle.bq_event_loop.specs.Reports.{may_come, ChangesOnlyBy, IsAfterTurn, IsToldOf, MayHaveCome, doors_after};
ghost use Rattle.bq_event_loop.specs.Rows.{AreTended, KeepsRow};
ghost use Rattle.bq_event_loop.specs.Sleeping.{HasWork};

use crate::doors::Doors;
use crate::row::Row;
use crate::sleeper::{Report, Sleeper};
use crate::still::has_no_mail;
use crate::turns::{ControlReads, ControlStands, News, SoFar, Stands, Turn, Turns};
use bq_core_api::QueueCore;
use bq_host::Mail;
use bq_line::attendant::{Progress, TryOpened};
use bq_line::clock::Clock;
use bq_line::control_line::ControlInput;
use bq_line::line::Line;
use bq_line::{Door, Watcher};
use std::alloc::Global;
use std::io;
use std::os::fd::RawFd;

/// Has the system report the connection of one seat.
#[derive(Clone, Copy)]
struct LineWatcher<'w, W> {
    sleeper: &'w W,
    seat: usize,
}

impl<'w, W: Sleeper> Watcher for LineWatcher<'w, W> {
    fn watch(&self, fd: RawFd) -> io::Result<()> {
        self.sleeper.watch(fd, self.seat)
    }
}

/// Does what follows a turn: a seat checks for a client, the control line is watched again, or the
/// loop waits. `so_far` is passed for the contract alone.
#[inline(always)]
pub fn end_turn<
    T: Turns,
    W: Sleeper,
    L: Line + Drop,
    D: Door<Line = L>,
    C: Clock + Drop,
    I: ControlInput + Drop,
    K: QueueCore + Drop,
>(
    turn: Turn,
    turns: &mut T,
    sleeper: &mut W,
    doors: &mut Doors,
    alloc: Global,
    row: &mut Row<L, D>,
    mails: &Vec<Mail, Global>,
    news: &mut News,
    so_far: &SoFar<L, D, C, I, K>,
)
    requires tended { AreTended L.Line D.Door row.old }
    requires turn { IsAtTurnOf L.Line K.QueueCore T.Turns turns.old row.old.seats.items mails.now.items news.old so_far.now }
    requires acts { IsListedIn (T.listed turns.old) turn }
    ensures keeps { KeepsRow L.Line D.Door row.old row.new }
    ensures known { AreKnownBy L.Line T.Turns turns.new [] row.new.seats.items mails.now.items }
    ensures free { IsFreeSeat news.new.free row.new.seats.items }
    ensures still { IsStillSeat L.Line news.new.still row.new.seats.items mails.now.items }
    ensures due { news.new.due ≡ news.old.due }
    ensures control { news.new.control ≡ news.old.control }
    // The turns learn whether a door should be checked.
    ensures may_come { news.old.may_come ≡ may_come doors.old → news.new.may_come ≡ may_come doors.new }
    ensures doors { IsAfterTurn turn news.new.free doors.old doors.new }
{
    news.free = None;
    news.still = None;
    match turn {
        Turn::Serve(seat, _) => note_seat(row, mails, seat, news),
        Turn::HandOn(seat) => row.hand_on(seat),
        Turn::TryOpen(seat) => try_open(sleeper, doors, alloc, row, seat, news),
        Turn::TurnAway => {
            doors.turn_away(sleeper.system(), row);
            news.may_come = doors.may_come();
        }
        Turn::Control(_) => sleeper.watch_control(news.control),
        Turn::Time => wait(turns, sleeper, doors, row, mails, news, so_far),
        Turn::Nothing => {}
    }
}

// Notes what a seat does next after its turn. Mostly it waits for the next command.
fn note_seat<L: Line + Drop, D: Door<Line = L>>(
    row: &mut Row<L, D>,
    mails: &Vec<Mail, Global>,
    seat: usize,
    news: &mut News,
)
    requires tended { AreTended L.Line D.Door row.old }
    ensures keeps { KeepsRow L.Line D.Door row.old row.new }
    ensures only { ChangesOnly seat row.old.seats.items row.new.seats.items }
    ensures still { IsStillSeat L.Line news.new.still row.new.seats.items mails.now.items }
    ensures rest { news.new ≡ record news.old { stands = news.new.stands; still = news.new.still } }
{
    if row.rests(seat) {
        news.stands = Stands::Awaits;
        news.still = Some(seat);
        return;
    }
    news.stands = row.stands(seat);
    if may_rest(news.stands, news.progress) {
        note_rest(row, mails, seat, news);
    } else {
        news.still = None;
    }
}

// Notes whether a seat rests that has nothing to do, or moved nothing. Its connection sends what it
// holds back. Otherwise the last answers of a batch would wait for the client's acknowledgement.
#[inline(never)]
fn note_rest<L: Line + Drop, D: Door<Line = L>>(
    row: &mut Row<L, D>,
    mails: &Vec<Mail, Global>,
    seat: usize,
    news: &mut News,
)
    requires tended { AreTended L.Line D.Door row.old }
    ensures keeps { KeepsRow L.Line D.Door row.old row.new }
    ensures only { ChangesOnly seat row.old.seats.items row.new.seats.items }
    ensures still { IsStillSeat L.Line news.new.still row.new.seats.items mails.now.items }
    ensures rest { news.new ≡ record news.old { stands = news.new.stands; still = news.new.still } }
{
    row.hand_on(seat);
    news.still = if row.is_still(seat, has_no_mail(mails, seat)) {
        Some(seat)
    } else {
        None
    };
}

// Returns true if a seat that stands so may rest: it has nothing to do, or nothing moved.
fn may_rest(stands: Stands, progress: Progress) -> bool
    ensures rests { result ≡ true → (stands ≡ Stands.Done) ⊎ (stands ≡ Stands.Awaits) ⊎ (stands ≡ Stands.Waits)
        ⊎ (progress ≡ Progress.Moved → ⊥) }
    ensures idle { result ≡ false → (stands ≡ Stands.Done → ⊥) × (stands ≡ Stands.Awaits → ⊥) × (stands ≡ Stands.Waits → ⊥) }
    ensures moved { result ≡ false → progress ≡ Progress.Moved }
{
    match stands {
        Stands::Done | Stands::Awaits | Stands::Waits => true,
        _ => !progress.has_moved(),
    }
}

// Lets a seat check for its next connection, which is watched from then on.
fn try_open<W: Sleeper, L: Line + Drop, D: Door<Line = L>>(
    sleeper: &W,
    doors: &mut Doors,
    alloc: Global,
    row: &mut Row<L, D>,
    seat: usize,
    news: &mut News,
)
    requires tended { AreTended L.Line D.Door row.old }
    ensures keeps { KeepsRow L.Line D.Door row.old row.new }
    ensures only { ChangesOnly seat row.old.seats.items row.new.seats.items }
    ensures free { IsFreeSeat news.new.free row.new.seats.items }
    ensures may_come { news.new.may_come ≡ may_come doors.new }
    ensures rest { news.new ≡ record news.old { free = news.new.free; may_come = news.new.may_come; progress = news.new.progress } }
    // Only a check that found no client changes what is known of the doors.
    ensures found { news.new.free ≡ None → doors.new ≡ doors.old }
{
    let may_have_come = doors.may_come();
    let watcher = LineWatcher { sleeper, seat };
    let tried = row.try_open(alloc, seat, may_have_come, &watcher);
    doors.note_tried(sleeper.system(), may_have_come, tried);
    news.may_come = doors.may_come();
    news.free = free_after(tried, seat);
    news.progress = match news.free {
        Some(_) => Progress::NothingToDo,
        None => Progress::Moved,
    };
}

// Returns the seat if it found no client and checks again when one may have come.
fn free_after(tried: TryOpened, seat: usize) -> Option<usize>
    ensures some { (free : ℕ) → result ≡ Some free → (free ≡ seat) × ((tried ≡ TryOpened.NotYet) ⊎ (tried ≡ TryOpened.Later)) }
    ensures none { result ≡ None → (tried ≡ TryOpened.Opened) ⊎ (tried ≡ TryOpened.NoMore) }
{
    match tried {
        TryOpened::Opened | TryOpened::NoMore => None,
        TryOpened::NotYet | TryOpened::Later => Some(seat),
    }
}

// Waits until the system reports something, or something is due. If the loop has something to do,
// it only asks the system.
fn wait<
    T: Turns,
    W: Sleeper,
    L: Line + Drop,
    D: Door<Line = L>,
    C: Clock + Drop,
    I: ControlInput + Drop,
    K: QueueCore + Drop,
>(
    turns: &mut T,
    sleeper: &mut W,
    doors: &mut Doors,
    row: &mut Row<L, D>,
    mails: &Vec<Mail, Global>,
    news: &mut News,
    so_far: &SoFar<L, D, C, I, K>,
)
    requires tended { AreTended L.Line D.Door row.old }
    requires turn { IsAtTurnOf L.Line K.QueueCore T.Turns turns.old row.old.seats.items mails.now.items news.old so_far.now }
    ensures keeps { KeepsRow L.Line D.Door row.old row.new }
    ensures known { AreKnownBy L.Line T.Turns turns.new [] row.new.seats.items mails.now.items }
    ensures may_come { news.new.may_come ≡ may_come doors.new }
    ensures rest { news.new ≡ record news.old { may_come = news.new.may_come; reads = news.new.reads } }
    ensures come { doors.old.may_have_come ≡ true → doors.new.may_have_come ≡ true }
{
    let reads = sleeper.control_reads(news.control);
    if is_busy(turns, doors, news, reads) {
        sleeper.ask(turns, doors, news.due, news.control, reads);
    } else {
        let most = doors.longest_wait(sleeper.system(), news.due);
        sleeper.sleep(turns, row, mails, so_far, doors, news.due, most);
    }
    doors.pass(sleeper.system());
    note_reports(turns, sleeper, doors, row, mails);
    news.may_come = doors.may_come();
    news.reads = sleeper.control_reads(news.control);
}

// Returns true if the loop must not sleep: a seat acts, or checks for a client that may have come,
// the control line is read or owes a step, connections are left to close, or something is due now.
// If none of this is so, it returns false, so that the loop does not ask again and again.
fn is_busy<T: Turns>(turns: &mut T, doors: &Doors, news: &News, reads: Option<ControlReads>) -> bool
    ensures seats { T.seats turns.new ≡ T.seats turns.old }
    ensures listed { (seat : ℕ) → T.listed turns.new seat ≡ T.listed turns.old seat }
    ensures tries { (seat : ℕ) → T.tries turns.new seat ≡ T.tries turns.old seat }
    ensures acts { result ≡ false → (seat : ℕ) → T.listed turns.new seat ≡ false }
    ensures checks { result ≡ false → may_come doors.now ≡ true → (seat : ℕ) → T.tries turns.new seat ≡ false }
    ensures away { result ≡ false → doors.now.are_more_away ≡ false }
    ensures due { result ≡ false → news.now.due ≡ Some 0 → ⊥ }
    ensures owes { result ≡ false → news.now.control ≡ ControlStands.Owes → ⊥ }
    ensures control { result ≡ false → reads ≡ None }
    ensures busy { result ≡ true → HasWork (may_come doors.now) (T.listed turns.new) (T.tries turns.new)
        doors.now.are_more_away news.now.due news.now.control reads }
{
    if !turns.may_sleep(doors.may_come()) {
        return true;
    }
    if doors.are_more_away() {
        return true;
    }
    if let Some(0) = news.due {
        return true;
    }
    if news.control == ControlStands::Owes {
        return true;
    }
    reads.is_some()
}

// Notes what the system reported: connections that are ready, or a client that may have connected.
fn note_reports<T: Turns, W: Sleeper, L: Line + Drop, D: Door<Line = L>>(
    turns: &mut T,
    sleeper: &mut W,
    doors: &mut Doors,
    row: &mut Row<L, D>,
    mails: &Vec<Mail, Global>,
)
    requires tended { AreTended L.Line D.Door row.old }
    requires known { AreKnownBy L.Line T.Turns turns.old [] row.old.seats.items mails.now.items }
    ensures keeps { KeepsRow L.Line D.Door row.old row.new }
    ensures known { AreKnownBy L.Line T.Turns turns.new [] row.new.seats.items mails.now.items }
    ensures listed { KeepsAll (T.listed turns.old) (T.listed turns.new) }
    ensures doors { MayHaveCome doors.old doors.new }
{
    for number in 0..sleeper.reports() {
        let report = sleeper.report(number);
        note_report(report, turns, doors, row, mails);
    }
}

// Notes one report: it wakes the seat of a connection, or notes that a client may have connected.
fn note_report<T: Turns, L: Line + Drop, D: Door<Line = L>>(
    report: Report,
    turns: &mut T,
    doors: &mut Doors,
    row: &mut Row<L, D>,
    mails: &Vec<Mail, Global>,
)
    requires tended { AreTended L.Line D.Door row.old }
    requires known { AreKnownBy L.Line T.Turns turns.old [] row.old.seats.items mails.now.items }
    ensures keeps { KeepsRow L.Line D.Door row.old row.new }
    ensures known { AreKnownBy L.Line T.Turns turns.new [] row.new.seats.items mails.now.items }
    ensures woken { IsToldOf report (T.seats turns.old) (T.tries turns.old) (T.listed turns.new) }
    ensures listed { KeepsAll (T.listed turns.old) (T.listed turns.new) }
    ensures only { ChangesOnlyBy report row.old.seats.items row.new.seats.items }
    ensures doors { doors.new ≡ doors_after report doors.old }
{
    match report {
        Report::Line(seat, ready) => {
            row.note_ready(seat, ready);
            turns.wake(seat);
        }
        Report::Doors => doors.one_may_have_come(),
        Report::Nothing => {}
    }
}
