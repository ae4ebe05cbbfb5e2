//! The places of jobs in their orders.
ghost use Rattle.std.specs.Cmp as Cmp;
ghost use Rattle.bq_jobs.specs.Groups.{group_at, group_cmp, group_number, group_total, list_number};
ghost use Rattle.std.proofs.Common.{refl};
ghost use Rattle.std.specs.Ordering.{as_partial_cmp, eq_by_cmp, is_gt, is_lt};
ghost use Rattle.std.specs.Prelude.{◌≡◌};
ghost use Rattle.bq_jobs.specs.Places.{group_place, in_groups_at, in_timers_at, timer_place};

use super::numbered_jobs::{PackedJob, PriAndState};
use super::tube_number::TubeNumber;
use bq_index::Parted;
use bq_job::{JobId, JobState, Seat};
use std::cmp::Ordering;
use std::marker::Model;

/// A state whose jobs a tube keeps in an order.
#[derive(Clone, Copy)]
pub enum JobList {
    Ready,
    Delayed,
    Buried,
}

/// The jobs of a tube in one state.
#[derive(Clone, Copy)]
pub struct TubeList {
    pub list: JobList,
    pub tube: TubeNumber,
}

/// The holder of a job: the client at a seat, or a list of the job's tube. A job never has both, so
/// one order serves for both.
#[derive(Clone, Copy)]
pub enum Holder {
    Held(Seat),
    Listed(TubeList),
}

/// A holder as one number, so that a place is small. A list of a tube has four times the number of
/// the tube plus 0, 1 or 2, and a client four times its seat plus 3.
#[derive(Clone, Copy)]
pub struct Group(u32);

impl Model for Group {
    ghost use Rattle.bq_jobs.specs.declared.places.Holder.{Holder};
    ghost use Rattle.bq_jobs.specs.Groups.{group_at, group_number};
    ghost use Rattle.std.specs.Prelude.{◌≡◌};

    ghost Value = { Holder };

    ghost view = { λ g. group_at g.0 };

    ghost invariant = { λ g. group_number (group_at g.0) ≡ g.0 };

    ghost inverse = { λ h. record { 0 = group_number h } };

    ghost inverse_ok = { λ g h. λ i. record { 0 = h i } };
}

impl Group {
    ghost use Rattle.bq_jobs.specs.Places.{held_by, list_of};

    /// Returns the holder of the jobs of a tube in one state.
    pub fn list(list: JobList, tube: TubeNumber) -> Group
        ensures { result ≡ list_of tube list }
    {
        Group(tube.get() * 4 + number_of(list))
    }

    /// Returns the number that stands for it.
    pub(crate) fn number(self) -> u32
        ensures { result ≡ group_number self }
    {
        self.0
    }

    /// Returns the holder of the jobs of the client at a seat.
    pub fn held(seat: Seat) -> Group
        ensures { result ≡ held_by seat }
    {
        Group(u32::from(seat) * 4 + 3)
    }
}

// Returns the number of a list among the three of a tube.
pub(crate) fn number_of(list: JobList) -> u32
    ensures { result ≡ list_number list }
{
    match list {
        JobList::Ready => 0,
        JobList::Delayed => 1,
        JobList::Buried => 2,
    }
}

impl PartialEq for Group {
    ghost eq = { eq_by_cmp group_cmp };

    ghost laws = { Cmp.partial_equiv_from_equiv (Cmp.eq_by_cmp_equiv group_total) };

    fn eq(&self, other: &Group) -> bool {
        self.cmp(other).is_eq()
    }
}

impl Eq for Group {
    ghost laws = { Cmp.eq_by_cmp_equiv group_total };
}

impl PartialOrd for Group {
    ghost partial_cmp = { as_partial_cmp group_cmp };

    ghost laws = { Cmp.partial_order_from_agreeing_total group_cmp group_total (λ a b. refl) (λ a b. refl) };

    fn partial_cmp(&self, other: &Group) -> Option<Ordering> {
        Some(self.cmp(other))
    }
}

impl Ord for Group {
    ghost cmp = { group_cmp };

    ghost total = { group_total };

    ghost matches_partial_cmp = { λ a b. refl };

    ghost matches_eq = { λ a b. refl };

    fn cmp(&self, other: &Group) -> Ordering {
        self.0.cmp(&other.0)
    }
}

/// A number as two halves, which needs an alignment of only four bytes. So a place with a group of
/// one byte takes 20 bytes, and in a box it uses the space after the tag.
#[derive(Clone, Copy)]
pub struct SplitU64 {
    low: u32,
    high: u32,
}

impl Model for SplitU64 {
    ghost use Rattle.std.specs.Prelude.{◌≡◌, ℕ};
    ghost use Rattle.bq_jobs.specs.Halves.{high_half, low_half, of_halves};

    ghost Value = { ℕ };

    ghost view = { λ n. of_halves n.high n.low };

    ghost invariant = { λ n. (low_half (of_halves n.high n.low) ≡ n.low) × (high_half (of_halves n.high n.low) ≡ n.high) };

    ghost inverse = { λ n. record { low = low_half n; high = high_half n } };

    ghost inverse_ok = { λ n h. λ i. record { low = h.0 i; high = h.1 i } };
}

impl SplitU64 {
    ghost use Rattle.std.specs.Prelude.{◌≡◌};

    /// Splits a number.
    fn of(number: u64) -> SplitU64
        ensures { result ≡ number }
    {
        SplitU64 {
            low: (number % 0x1_0000_0000) as u32,
            high: (number / 0x1_0000_0000) as u32,
        }
    }

    /// Returns the number.
    fn get(self) -> u64
        ensures { result ≡ self }
    {
        u64::from(self.high) * 0x1_0000_0000 + u64::from(self.low)
    }
}

/// A place in an order: by group, then by a number, then by the id of the job.
#[derive(Clone, Copy)]
pub struct ShelfPlace<G> {
    /// The number that orders the places of a group: a priority, a moment or a burial number.
    pub at: SplitU64,
    /// The id of the job.
    pub id: SplitU64,
    pub group: G,
}

impl<G: Ord> PartialEq for ShelfPlace<G> {
    ghost use Rattle.std.specs.Cmp as Cmp;
    ghost use Rattle.std.specs.Ordering.{eq_by_cmp};
    ghost use Rattle.bq_jobs.specs.PlaceOrder.{place_cmp, place_total};

    ghost eq = { eq_by_cmp (place_cmp G.cmp) };

    ghost laws = { Cmp.partial_equiv_from_equiv (Cmp.eq_by_cmp_equiv (place_total G.total)) };

    fn eq(&self, other: &ShelfPlace<G>) -> bool {
        self.cmp(other).is_eq()
    }
}

impl<G: Ord> Eq for ShelfPlace<G> {
    ghost use Rattle.std.specs.Cmp as Cmp;
    ghost use Rattle.bq_jobs.specs.PlaceOrder.{place_total};

    ghost laws = { Cmp.eq_by_cmp_equiv (place_total G.total) };
}

impl<G: Ord> PartialOrd for ShelfPlace<G> {
    ghost use Rattle.std.proofs.Common.{refl};
    ghost use Rattle.std.specs.Cmp as Cmp;
    ghost use Rattle.std.specs.Ordering.{as_partial_cmp};
    ghost use Rattle.bq_jobs.specs.PlaceOrder.{place_cmp, place_total};

    ghost partial_cmp = { as_partial_cmp (place_cmp G.cmp) };

    ghost laws = { Cmp.partial_order_from_agreeing_total (place_cmp G.cmp) (place_total G.total) (λ a b. refl) (λ a b. refl) };

    fn partial_cmp(&self, other: &ShelfPlace<G>) -> Option<Ordering> {
        Some(self.cmp(other))
    }
}

impl<G: Ord> Ord for ShelfPlace<G> {
    ghost use Rattle.std.proofs.Common.{refl};
    ghost use Rattle.bq_jobs.specs.PlaceOrder.{place_cmp, place_total};

    ghost cmp = { place_cmp G.cmp };

    ghost total = { place_total G.total };

    ghost matches_partial_cmp = { λ a b. refl };

    ghost matches_eq = { λ a b. refl };

    fn cmp(&self, other: &ShelfPlace<G>) -> Ordering {
        // Each result has a branch of its own, so that a search continues from there without
        // building an `Ordering`.
        if is_below(&self.group, &other.group) {
            Ordering::Less
        } else if is_above(&self.group, &other.group) {
            Ordering::Greater
        } else {
            self.cmp_numbers(other)
        }
    }
}

// These two functions tell whether a group comes before or after another. Each compiles to one test
// of two numbers. With a single `Ordering` that is tested twice, the `Ordering` would be built
// first.
fn is_below<G: Ord>(group: &G, other: &G) -> bool
    ensures { result ≡ is_lt (G.cmp group.now other.now) }
{
    group.cmp(other).is_lt()
}

fn is_above<G: Ord>(group: &G, other: &G) -> bool
    ensures { result ≡ is_gt (G.cmp group.now other.now) }
{
    group.cmp(other).is_gt()
}

/// A kind of timer: a delay or a lease, which ends at a moment.
#[derive(Clone, Copy, PartialEq, Eq, PartialOrd, Ord)]
pub enum Timer {
    /// The delay of a delayed job.
    Delay,
    /// The time to run of a reserved job.
    Lease,
}

impl Parted for ShelfPlace<Group> {
    ghost use Rattle.bq_jobs.specs.PlaceParts.{part_of, parts_ascend};

    ghost part = { part_of };

    ghost apart = { parts_ascend };

    fn part(&self) -> u64 {
        u64::from(self.group.number())
    }
}

impl<G> ShelfPlace<G> {
    ghost use Rattle.bq_jobs.specs.PlaceOrder.{numbers_cmp, rank_of};

    /// Returns the place of a job in a group.
    pub(crate) fn of(group: G, at: u64, id: JobId) -> ShelfPlace<G>
        ensures { result ≡ record { at = at; id = id; group = group } }
    {
        ShelfPlace {
            at: SplitU64::of(at),
            id: SplitU64::of(id),
            group,
        }
    }

    /// Returns the number and the id of a place.
    pub(crate) fn rank(&self) -> (u64, JobId)
        ensures { result ≡ rank_of self.now }
    {
        (self.at.get(), self.id.get())
    }

    // Compares two places within a group.
    fn cmp_numbers(&self, other: &ShelfPlace<G>) -> Ordering
        ensures { result ≡ numbers_cmp self.now other.now }
    {
        let (at, other_at) = (self.at.get(), other.at.get());
        if at < other_at {
            Ordering::Less
        } else if at > other_at {
            Ordering::Greater
        } else {
            self.id.get().cmp(&other.id.get())
        }
    }
}

/// Returns the place of the job with this id in its tube's list or among the jobs of its holder.
pub(crate) fn group_place(id: JobId, job: &PackedJob) -> Option<ShelfPlace<Group>>
    requires { job.now.id ≡ id }
    ensures { result ≡ group_place job.now }
{
    place_in_groups(id, job.tube, PriAndState::of_packed(job))
}

/// Returns the place of the job with this id among all delays and leases, if it has one.
pub(crate) fn timer_place(id: JobId, job: &PackedJob) -> Option<ShelfPlace<Timer>>
    requires { job.now.id ≡ id }
    ensures { result ≡ timer_place job.now }
{
    place_in_timers(id, PriAndState::of_packed(job))
}

/// Returns the place that a job with this id, tube, priority and state has in its tube's list or among the
/// jobs of its holder. Each job has one.
pub(crate) fn place_in_groups(
    id: JobId,
    tube: TubeNumber,
    at: PriAndState,
) -> Option<ShelfPlace<Group>>
    ensures { result ≡ in_groups_at at.state at.pri tube id }
{
    let (group, number) = match at.state {
        JobState::Ready => (Group::list(JobList::Ready, tube), u64::from(at.pri)),
        JobState::Delayed(due) => (Group::list(JobList::Delayed, tube), due),
        JobState::Reserved(seat, deadline) => (Group::held(seat), deadline),
        JobState::Buried(number) => (Group::list(JobList::Buried, tube), number),
    };
    Some(ShelfPlace::of(group, number, id))
}

/// Returns the place that a job with this id and state has among all delays and leases, if it
/// has one.
pub(crate) fn place_in_timers(id: JobId, at: PriAndState) -> Option<ShelfPlace<Timer>>
    ensures { result ≡ in_timers_at at.state id }
{
    match at.state {
        JobState::Delayed(due) => Some(ShelfPlace::of(Timer::Delay, due, id)),
        JobState::Reserved(_, deadline) => Some(ShelfPlace::of(Timer::Lease, deadline, id)),
        JobState::Ready | JobState::Buried(_) => None,
    }
}
