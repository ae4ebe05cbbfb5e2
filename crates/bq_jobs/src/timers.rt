//! The places of jobs among all delays and leases.
ghost use Rattle.std.specs.Prelude.{◌≡◌, ◌==◌, ◌&&◌, ◌-◌, []};
ghost use Rattle.bq_index.specs.Shelf.{ComparesFew};
ghost use Rattle.bq_job.specs.machine.Changes.{is_pair_before};
ghost use Rattle.bq_jobs.specs.FirstLeases.{is_known_first, is_new_first, lease_with, lease_without};
ghost use Rattle.bq_jobs.specs.PlaceOrder.{first_rank, rank_of};
ghost use Rattle.bq_jobs.specs.declared.places.Timer.TheVariants.{Lease};

use super::place_shelf::{self, PlaceShelf};
use super::places::{ShelfPlace, Timer};
use bq_index::{BoxSource, Shelf};
use bq_job::{JobId, Moment, NoMemory};
use std::marker::Model;

/// The first lease, if it is known without a search.
#[derive(Clone, Copy)]
pub enum FirstLease {
    Unknown,
    Known(Option<(Moment, JobId)>),
}

/// The places of jobs among all delays and leases. It has the calls of a shelf of places, and the
/// contracts see it as that shelf.
///
/// A core asks for the first lease before and after each step, but few steps change it. So it is
/// kept until its own place is removed. A lease that is added is compared with it.
#[derive(Drop)]
pub(crate) struct Timers {
    places: Shelf<ShelfPlace<Timer>, ()>,
    lease: FirstLease,
}

impl Model for Timers {
    ghost use Rattle.bq_jobs.specs.declared.places.Timer.{Timer};
    ghost use Rattle.bq_jobs.specs.FirstLeases.{IsFirstLease};
    ghost use Rattle.bq_jobs.specs.Inside.{Order};

    ghost Value = { Order Timer };

    ghost view = { λ t. t.places };

    ghost invariant = { λ t. IsFirstLease ⟦<Timer as Ord>⟧.cmp t.lease t.places.entries };
}

impl Timers {
    /// Returns no places, and no room for one.
    pub(crate) fn new() -> Timers
        ensures { result ≡ record { entries = []; spare = 0; comparisons = 0 } }
    {
        Timers {
            places: Shelf::new(),
            lease: FirstLease::Unknown,
        }
    }

    /// Returns how often two places were compared so far.
    pub(crate) fn comparisons(&self) -> u64
        ensures { result ≡ self.now.comparisons }
    {
        self.places.comparisons()
    }

    /// Returns one spare box to the allocator, if there is one.
    pub(crate) fn give_back(&mut self)
        ensures { self.new ≡ record self.old { spare = self.old.spare - 1 } }
    {
        self.places.give_back();
    }

    /// Returns the moment and the id of the first delay or of the first lease.
    pub(crate) fn first(&mut self, timer: Timer) -> Option<(Moment, JobId)>
        ensures rank { result ≡ first_rank ⟦<Timer as Ord>⟧.cmp timer self.old.entries }
        ensures entries { self.new.entries ≡ self.old.entries }
        ensures spare { self.new.spare ≡ self.old.spare }
        ensures comparisons { ComparesFew self.old self.new }
    {
        match timer {
            Timer::Delay => place_shelf::first_rank(&mut self.places, Timer::Delay),
            Timer::Lease => self.first_lease(),
        }
    }

    fn first_lease(&mut self) -> Option<(Moment, JobId)>
        ensures rank { result ≡ first_rank ⟦<Timer as Ord>⟧.cmp Lease self.old.entries }
        ensures entries { self.new.entries ≡ self.old.entries }
        ensures spare { self.new.spare ≡ self.old.spare }
        ensures comparisons { ComparesFew self.old self.new }
    {
        if let FirstLease::Known(first) = &self.lease {
            return *first;
        }
        let first = place_shelf::first_rank(&mut self.places, Timer::Lease);
        self.lease = FirstLease::Known(first);
        first
    }
}

type TimerPlace = ShelfPlace<Timer>;

impl PlaceShelf<TimerPlace> for Timers {
    ghost seen = { λ t. t };

    fn make_room<S: BoxSource>(&mut self, source: &mut S, places: usize) -> Result<(), NoMemory> {
        self.places.make_room(source, places)
    }

    #[inline(never)]
    #[tactic(auto, using(crate::proofs::LeaseLemmas::lease_entered))]
    fn add(&mut self, place: TimerPlace) {
        note_added(&mut self.lease, &place);
        self.places.insert(place, ());
    }

    #[inline(never)]
    #[tactic(auto, using(crate::proofs::LeaseLemmas::lease_left))]
    fn take(&mut self, place: TimerPlace) {
        note_removed(&mut self.lease, &place);
        let _held = self.places.remove(&place);
    }
}

// Changes what is known of the first lease when a place is added. Most places leave it as it is, and
// then nothing is written.
fn note_added(lease: &mut FirstLease, place: &ShelfPlace<Timer>)
    ensures { lease.new ≡ lease_with place.now.group (rank_of place.now) lease.old }
{
    if is_new_first(lease, place) {
        *lease = FirstLease::Known(Some(place.rank()));
    }
}

// Returns true if a place that is added is the first lease, as far as the first lease was known.
fn is_new_first(lease: &FirstLease, place: &ShelfPlace<Timer>) -> bool
    ensures { result ≡ is_new_first place.now.group (rank_of place.now) lease.now }
{
    match place.group {
        Timer::Delay => false,
        Timer::Lease => match lease {
            FirstLease::Unknown => false,
            FirstLease::Known(None) => true,
            FirstLease::Known(Some(first)) => is_before(place.rank(), *first),
        },
    }
}

// Returns true if a lease ends before another one.
fn is_before(lease: (Moment, JobId), other: (Moment, JobId)) -> bool
    ensures { result ≡ is_pair_before lease.0 lease.1 other.0 other.1 }
{
    lease.0 < other.0 || lease.0 == other.0 && lease.1 < other.1
}

// Changes what is known of the first lease when a place is removed.
fn note_removed(lease: &mut FirstLease, place: &ShelfPlace<Timer>)
    ensures { lease.new ≡ lease_without place.now.group (rank_of place.now) lease.old }
{
    if is_known_first(lease, place) {
        *lease = FirstLease::Unknown;
    }
}

// Returns true if a place is that of the first lease, as far as that is known.
fn is_known_first(lease: &FirstLease, place: &ShelfPlace<Timer>) -> bool
    ensures { result ≡ is_known_first place.now.group (rank_of place.now) lease.now }
{
    match place.group {
        Timer::Delay => false,
        Timer::Lease => match lease {
            FirstLease::Unknown | FirstLease::Known(None) => false,
            FirstLease::Known(Some(first)) => *first == place.rank(),
        },
    }
}
