//! The ends of the links: the core's end, and one end for each seat and for the control line. The
//! intake that they share follows, with its rule: what a thread knows of the intake, and what each
//! call proves about it.
ghost use Rattle.std.specs.Prelude.{ℕ, ◌≡◌, ◌+◌, ◌<◌, ◌≤◌, ◌∷◌, ◌++◌, [], false, true, List, length};
ghost use Rattle.std.specs.Prelude.{IfErr, IfNone, IfOk, IfSome, OnErr, OnOk};
ghost use Rattle.bq_job.specs.declared.step.Step.{Step as AStep};
ghost use Rattle.bq_link.specs.Delivery.{WaitsOf, blank_view, seat_view};
ghost use Rattle.bq_link.specs.EndChanges.{with_room, with_sent, with_told};
ghost use Rattle.bq_link.specs.EndStates.{IsPair, ring_places, room_for, sent_to, WasFull};
ghost use Rattle.bq_link.specs.NewEnds.{next_seat, with_ring};
ghost use Rattle.bq_link.specs.Submissions.{Covers, MayTake, steps_of, MaySubmit};
ghost use mathlib.Core.List.{IsPrefix};

use bq_job::{Answer, Seat, Step};
use crossbeam_queue::protocol::{Join, Lesson, Outcome, Protocol, Split};
use crossbeam_queue::{Pass, RuledArrayQueue};
use rtrb::{Consumer, Producer, RingBuffer};
use std::alloc::{AllocError, Global};
use std::collections::LinkedList;
use std::marker::{Model, PhantomData};
use std::mem;
use std::sync::Wait;
use std::sync::atomic::{AtomicBool, Ordering};
use std::thread::Parker;
use std::time::Duration;

/// The core's end. It takes the submitted steps and sends answers to the ends of the seats.
#[derive(Drop)]
pub struct CoreEnd {
    pub(crate) pass: Pass<(Seat, Step), View>,
    pub(crate) rings: Vec<Producer<Answer>, Global>,
}

impl Model for CoreEnd {
    ghost use Rattle.bq_link.specs.EndStates.{CoreState};

    ghost Value = { CoreState };

    ghost use Rattle.bq_link.specs.Inside.{core_state, IsCoreSound};

    ghost view = { core_state };

    ghost invariant = { IsCoreSound };
}

// How many answers can wait for an end.
const RING_PLACES: usize = 4;

impl CoreEnd {
    // Makes the next seat's end, and the ring between it and the core's end.
    pub(crate) fn next_end<I: IntakeInvariant>(
        &mut self,
        alloc: Global,
        intake: &Intake<I>,
    ) -> Result<SeatEnd, AllocError>
        requires intake { self.old.intake ≡ intake.now.id }
        requires few { length self.old.rings < 65536 }
        ensures core { IfOk result (λ seat. self.new ≡ with_ring self.old seat.ring) }
        ensures seat { IfOk result (λ seat. seat ≡ next_seat self.old seat.ring) }
    {
        let number = self.rings.len() as u16;
        let Ok((ring, mail)) = RingBuffer::new(alloc, RING_PLACES) else {
            return Err(AllocError);
        };
        let Ok(()) = self.rings.push(ring) else {
            return Err(AllocError);
        };
        let pass = intake.queue.another::<NextEnd>(&mut self.pass);
        Ok(SeatEnd { number, pass, mail })
    }

    /// Takes the oldest waiting step, with the number of the end that submitted it. Returns `None`
    /// if there is none.
    ///
    /// For `None` the contract states that at some moment after the last step was taken, the intake
    /// was empty; so everything that the core knows to be submitted was taken. It does not say
    /// whether that moment is during this call.
    pub fn take<I: IntakeInvariant, R: Wait>(
        &mut self,
        rt: &R,
        intake: &Intake<I>,
    ) -> Option<(Seat, Step)>
        requires intake { self.old.intake ≡ intake.now.id }
        requires may { MayTake I.was }
        ensures taken { IfSome result
            (λ t. self.new ≡ record self.old { taken = self.old.taken ++ t ∷ [] }) }
        ensures number { IfSome result (λ t. t.0 < length self.old.rings) }
        ensures none { IfNone result (self.new ≡ self.old) }
        ensures empty { IfNone result
            (I.was self.old.taken [] × Covers self.old.taken self.old.told) }
    {
        intake.queue.pop_as::<Takes<I>, R>(rt, &mut self.pass)
    }

    /// Returns true if no step waits. If there is none, this call changes nothing, whereas `take`
    /// returns room for a step.
    ///
    /// For true the contract states the same as that of `take` for `None`.
    pub fn is_empty<I: IntakeInvariant>(&mut self, intake: &Intake<I>) -> bool
        requires intake { self.old.intake ≡ intake.now.id }
        ensures same { self.new ≡ self.old }
        ensures empty { result ≡ true
            → I.was self.old.taken [] × Covers self.old.taken self.old.told }
    {
        intake.queue.is_empty_as::<Takes<I>>(&mut self.pass)
    }

    /// Returns true if the ring of the end with this number has room for one more answer, which
    /// `push` can then send.
    #[tactic(auto, using(crate::proofs::RingLemmas::looked))]
    pub fn has_room(&mut self, seat: Seat) -> bool
        requires { seat < length self.old.rings }
        ensures room { result ≡ true → 0 < room_for self.new seat }
        ensures full { result ≡ false → self.new ≡ with_room self.old seat 0 }
        ensures succeeds { 0 < room_for self.old seat → result ≡ true }
        ensures rest { self.new ≡ with_room self.old seat (room_for self.new seat) }
    {
        !self.rings[usize::from(seat)].is_full()
    }

    /// Sends an answer to the end with this number, whose ring is known to have room.
    #[tactic(auto, using(crate::proofs::RingLemmas::sends))]
    pub fn push(&mut self, seat: Seat, answer: Answer)
        requires within { seat < length self.old.rings }
        requires room { 0 < room_for self.old seat }
        ensures sent { self.new
            ≡ with_room (with_sent self.old seat answer) seat (room_for self.new seat) }
        ensures to { sent_to self.new seat ≡ sent_to self.old seat ++ answer ∷ [] }
        ensures less { room_for self.old seat ≡ room_for self.new seat + 1 }
    {
        self.rings[usize::from(seat)].push_reserved(answer);
    }

    /// For a thread that owns both ends: returns how many answers were sent to the end and not
    /// taken. That many calls of `take_mail` return them, and the ring has room for all others.
    #[tactic(auto, using(crate::proofs::RingLemmas::looked_at_both))]
    pub fn left(&mut self, seat: &mut SeatEnd) -> usize
        requires { IsPair self.old seat.old }
        ensures counted { result ≡ length seat.new.waiting }
        ensures whole { seat.new.taken ++ seat.new.waiting ≡ sent_to self.new seat.old.number }
        ensures room { ring_places ≤ room_for self.new seat.old.number + result }
        ensures seat { seat.new ≡ record seat.old { waiting = seat.new.waiting } }
        ensures core { self.new
            ≡ with_room self.old seat.old.number (room_for self.new seat.old.number) }
    {
        let ring = &mut self.rings[usize::from(seat.number)];
        ring.slots_beside(&mut seat.mail);
        seat.mail.slots_beside(ring)
    }

    /// For a thread that owns both ends: records in the core's end what the seat's end submitted.
    /// All of it was taken or still waits.
    pub fn compare<I: IntakeInvariant>(&mut self, intake: &Intake<I>, seat: &mut SeatEnd)
        requires core { self.old.intake ≡ intake.now.id }
        requires seat { seat.old.intake ≡ intake.now.id }
        ensures waits { (waiting : List (ℕ × AStep)) × I.was self.old.taken waiting
            × (seat.old.submitted
            ≡ steps_of seat.old.number self.old.taken ++ steps_of seat.old.number waiting) }
        ensures told { self.new ≡ with_told self.old seat.old }
        ensures seat { seat.new ≡ seat.old }
    {
        let queue = &intake.queue;
        let blank = queue.another::<Blank>(&mut self.pass);
        let pass = mem::replace(&mut seat.pass, blank);
        queue.absorb::<InHand>(&mut self.pass, pass);
        queue.learn_as::<Compares<I>>(&mut self.pass);
        seat.pass = queue.another::<InHand>(&mut self.pass);
    }

    /// Waits until a step is submitted, for at most `most`. It may return earlier, and does not
    /// report why it returned.
    pub fn wait<I: IntakeInvariant, R: Wait>(&mut self, rt: &R, intake: &Intake<I>, most: Duration)
        ensures { self.new ≡ self.old }
    {
        intake.core.park_timeout(rt, most);
    }
}

/// A seat's end. It submits steps and takes the answers to them.
#[derive(Drop)]
pub struct SeatEnd {
    pub(crate) number: Seat,
    pub(crate) pass: Pass<(Seat, Step), View>,
    pub(crate) mail: Consumer<Answer>,
}

impl Model for SeatEnd {
    ghost use Rattle.bq_link.specs.EndStates.{SeatState};

    ghost Value = { SeatState };

    ghost use Rattle.bq_link.specs.Inside.{seat_state, IsSeatSound};

    ghost view = { seat_state };

    ghost invariant = { IsSeatSound };
}

impl SeatEnd {
    /// Returns the number of the end.
    pub fn number(&self) -> Seat
        ensures { result ≡ self.now.number }
    {
        self.number
    }

    /// Submits a step and wakes up the core's thread. If the intake is full, returns the step, and
    /// nothing was submitted (refusal 401).
    ///
    /// For a returned step the contract states that at some moment after this end last submitted a
    /// step, the intake was full. It does not say whether that moment is during this call.
    pub fn submit<I: IntakeInvariant, R: Wait>(
        &mut self,
        rt: &R,
        intake: &Intake<I>,
        step: Step,
    ) -> Result<(), Step>
        requires intake { self.old.intake ≡ intake.now.id }
        requires may { MaySubmit I.was intake.now.places self.old.number step }
        ensures submitted { OnOk result
            (self.new ≡ record self.old { submitted = self.old.submitted ++ step ∷ [] }) }
        ensures handed_back { IfErr result (λ back. back ≡ step) }
        ensures unchanged { OnErr result (self.new ≡ self.old) }
        ensures full { OnErr result (WasFull I.was intake.now.places self.old) }
    {
        let queue = &intake.queue;
        match queue.push_as::<Submits<I>, R>(rt, &mut self.pass, (self.number, step)) {
            Ok(()) => {
                intake.core.unpark();
                Ok(())
            }
            Err((_, step)) => Err(step),
        }
    }

    /// The same for a step passed by reference, so that it is copied less often. Returns true if it
    /// was submitted; `step` then has no meaning. Otherwise `step` is unchanged.
    pub fn submit_in_place<I: IntakeInvariant, R: Wait>(
        &mut self,
        rt: &R,
        intake: &Intake<I>,
        step: &mut Step,
    ) -> bool
        requires intake { self.old.intake ≡ intake.now.id }
        requires may { MaySubmit I.was intake.now.places self.old.number step.old }
        ensures submitted { result ≡ true
            → self.new ≡ record self.old { submitted = self.old.submitted ++ step.old ∷ [] } }
        ensures unchanged { result ≡ false → (self.new ≡ self.old) × (step.new ≡ step.old) }
        ensures full { result ≡ false → WasFull I.was intake.now.places self.old }
    {
        let given = mem::replace(step, Step::Tick);
        match intake
            .queue
            .try_push_as::<Submits<I>>(&mut self.pass, (self.number, given))
        {
            Ok(()) => {
                intake.core.unpark();
                true
            }
            Err((_, back)) => self.submit_again(rt, intake, step, back),
        }
    }

    // The same after one attempt failed: the intake is full, or another thread is in the way. It
    // tries until it is clear which. Not inlined, because it reserves and initializes room for
    // steps.
    #[inline(never)]
    fn submit_again<I: IntakeInvariant, R: Wait>(
        &mut self,
        rt: &R,
        intake: &Intake<I>,
        place: &mut Step,
        step: Step,
    ) -> bool
        requires intake { self.old.intake ≡ intake.now.id }
        requires may { MaySubmit I.was intake.now.places self.old.number step }
        ensures submitted { result ≡ true
            → self.new ≡ record self.old { submitted = self.old.submitted ++ step ∷ [] } }
        ensures unchanged { result ≡ false → (self.new ≡ self.old) × (place.new ≡ step) }
        ensures full { result ≡ false → WasFull I.was intake.now.places self.old }
    {
        match self.submit(rt, intake, step) {
            Ok(()) => true,
            Err(back) => {
                *place = back;
                false
            }
        }
    }

    /// Returns true if an answer waits, which `take_mail` can then take.
    pub fn has_mail(&mut self) -> bool
        ensures some { result ≡ true → 0 < length self.new.waiting }
        ensures none { result ≡ false → (self.old.waiting ≡ []) × (self.new ≡ self.old) }
        ensures known { IsPrefix self.old.waiting self.new.waiting }
        ensures rest { self.new ≡ record self.old { waiting = self.new.waiting } }
    {
        !self.mail.is_empty()
    }

    /// Takes the oldest answer, which is known to wait.
    pub fn take_mail(&mut self) -> Answer
        requires { 0 < length self.old.waiting }
        ensures taken { self.new
            ≡ record self.old { taken = self.old.taken ++ result ∷ []; waiting = self.new.waiting } }
        ensures next { self.old.waiting ≡ result ∷ self.new.waiting }
    {
        self.mail.pop_known()
    }

    /// Waits until an answer is sent to this end, for at most `most`. It may return earlier, and
    /// does not report why it returned.
    pub fn wait<I: IntakeInvariant, R: Wait>(&mut self, rt: &R, intake: &Intake<I>, most: Duration)
        ensures { self.new ≡ self.old }
    {
        if let Some(bell) = intake.seats.get(usize::from(self.number)) {
            bell.park_timeout(rt, most);
        }
    }
}

/// The state that all ends share: the submitted steps that were not taken, a bell for each end, and
/// whether yields are slow. A bell is a wake-up for one thread.
#[derive(Drop)]
pub struct Intake<I: IntakeInvariant> {
    pub(crate) queue: RuledArrayQueue<(Seat, Step), View, Delivery<I>>,
    pub(crate) core: Parker,
    pub(crate) seats: Vec<Parker>,
    pub(crate) are_yields_slow: AtomicBool,
}

impl<I: IntakeInvariant> Model for Intake<I> {
    ghost use Rattle.std.specs.Prelude.{ℕ, length};
    ghost use Rattle.bq_link.specs.EndStates.{IntakeState};

    ghost Value = { IntakeState };

    ghost use Rattle.crossbeam_queue.specs.Passes.{ruled_capacity};

    ghost view = { λ i. record {
      id = i.queue.table.shared.table_id;
      places = ruled_capacity i.queue;
      bells = length i.seats.items;
    } };
}

impl<I: IntakeInvariant> Intake<I> {
    /// Wakes up the thread of an end, so that it polls its mail. If the thread is not waiting, its
    /// next wait returns at once. A number without an end has no effect.
    pub fn wake(&self, seat: Seat) {
        if let Some(bell) = self.seats.get(usize::from(seat)) {
            bell.unpark();
        }
    }

    /// Notes for the threads of all ends whether yields are slow, because other programs use the
    /// processors. No call of the ends depends on it.
    pub fn note_slow_yields(&self, are_slow: bool) {
        if are_slow != self.are_yields_slow() {
            self.are_yields_slow.store(are_slow, Ordering::Relaxed);
        }
    }

    /// Returns true if yields were noted to be slow. At first they are not.
    pub fn are_yields_slow(&self) -> bool {
        self.are_yields_slow.load(Ordering::Relaxed)
    }
}

/// An invariant of an intake: a property of the steps taken so far and those that wait, which holds
/// at every moment. The caller of `links` chooses it, and every submission and every taken step must
/// keep it. The calls of the ends are proved for any invariant, so whatever they state by means of it
/// about a moment comes from the intake.
pub trait IntakeInvariant {
    ghost was: { List (ℕ × AStep) → List (ℕ × AStep) → Type 0 };
}

// What a thread knows of the intake, and what it may do. It exists in proofs only.
pub struct View {
    pub submits: bool,
    pub takes: bool,
    // The number under which it submits, and the steps that it has submitted.
    pub number: Seat,
    pub submitted: LinkedList<Step>,
    // The steps that it took, those that each end is known to have submitted, and the number of
    // ends.
    pub taken: LinkedList<(Seat, Step)>,
    pub told: LinkedList<(Seat, LinkedList<Step>)>,
    pub made: u64,
}

/// The submitted steps are those that were taken and then those that wait.
pub struct Delivery<I> {
    invariant: PhantomData<I>,
}

impl<I: IntakeInvariant> Protocol<(Seat, Step), View> for Delivery<I> {
    ghost use Rattle.std.specs.Prelude.{[]};
    ghost use Rattle.bq_link.specs.Delivery.{Delivers, core_view};

    ghost holds = { Delivers I.was };

    ghost first = { core_view [] [] 0 };
}

/// A step is appended; if that fails, the intake is full.
pub struct Submits<I> {
    invariant: PhantomData<I>,
}

impl<I: IntakeInvariant> Outcome<(Seat, Step), View> for Submits<I> {
    ghost then = { λ v x w. w ≡ record v { submitted = v.submitted ++ x.1 ∷ [] } };
}

impl<I: IntakeInvariant> Lesson<(Seat, Step), View> for Submits<I> {
    ghost fact = { λ v items. WaitsOf I.was v items };
}

/// The oldest step is removed; if there is none, everything that the core knows to be submitted was
/// taken.
pub struct Takes<I> {
    invariant: PhantomData<I>,
}

impl<I: IntakeInvariant> Outcome<(Seat, Step), View> for Takes<I> {
    ghost then = { λ v x w. (w ≡ record v { taken = v.taken ++ x ∷ [] }) × (x.0 < v.made) };
}

impl<I: IntakeInvariant> Lesson<(Seat, Step), View> for Takes<I> {
    ghost fact = { λ v items. I.was v.taken items × Covers (v.taken ++ items) v.told };
}

/// The core's pass makes that of the next end.
pub struct NextEnd;

impl Split<View> for NextEnd {
    ghost left = { λ v. record v { made = v.made + 1 } };

    ghost right = { λ v. seat_view v.made [] };
}

/// A pass that permits nothing.
pub struct Blank;

impl Split<View> for Blank {
    ghost left = { λ v. v };

    ghost right = { λ v. blank_view };
}

/// Joins the core's pass and that of an end, and splits them again.
pub struct InHand;

impl Join<View> for InHand {
    ghost both = { λ v w. record v {
      submits = true;
      number = w.number;
      submitted = w.submitted;
      told = (w.number, w.submitted) ∷ v.told;
    } };

    ghost spent = { blank_view };
}

impl Split<View> for InHand {
    ghost left = { λ v. record v { submits = false } };

    ghost right = { λ v. seat_view v.number v.submitted };
}

/// The steps of the end that the core took, and then those that wait, are those that the end
/// submitted.
pub struct Compares<I> {
    invariant: PhantomData<I>,
}

impl<I: IntakeInvariant> Lesson<(Seat, Step), View> for Compares<I> {
    ghost fact = { λ v items. I.was v.taken items × (steps_of v.number (v.taken ++ items) ≡ v.submitted) };
}
