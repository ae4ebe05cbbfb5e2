//! The holders of jobs, with the names of tubes.
ghost use Rattle.std.specs.Cmp as Cmp;
ghost use Rattle.bq_jobs.specs.Groups.{group_cmp, group_number, group_total, tube_in};
ghost use Rattle.bq_jobs.specs.Names.{name_cmp, number_in};
ghost use Rattle.std.proofs.Common.{refl};
ghost use Rattle.std.specs.Ordering.{as_partial_cmp, eq_by_cmp};
ghost use Rattle.std.specs.Prelude.{◌≡◌, ◌<◌, ◌^◌};
ghost use Rattle.bq_jobs.specs.Places.{group_place, held_by, list_of, timer_place};

use super::numbered_jobs::PriAndState;
use super::places::{self, JobList, ShelfPlace, Timer};
use bq_job::{Job, JobId, JobState, Seat, TubeName};
use std::cmp::Ordering;
use std::marker::Model;

/// A holder of jobs: the client at a seat, or a tube in one state. It is [`super::places::Group`]
/// with the name of the tube in place of its number, and has the same order.
#[derive(Clone, Copy)]
pub struct NamedGroup(Named);

/// The client at a seat, or a tube in one state.
#[derive(Clone, Copy)]
pub enum Named {
    Held(Seat),
    Listed(JobList, TubeName),
}

impl Model for NamedGroup {
    ghost use Rattle.bq_jobs.specs.declared.places.Holder.{Holder};
    ghost use Rattle.bq_jobs.specs.NamedGroups.{holder_named, named_holder};

    ghost Value = { Holder };

    ghost view = { λ g. holder_named g.0 };

    ghost inverse = { λ h. record { 0 = named_holder h } };
}

impl NamedGroup {
    /// Returns the holder of the jobs of a tube in one state.
    pub(crate) fn list(list: JobList, tube: &TubeName) -> NamedGroup
        ensures { result ≡ list_of tube.now list }
    {
        NamedGroup(Named::Listed(list, *tube))
    }

    /// Returns the holder of the jobs of the client at a seat.
    pub(crate) fn held(seat: Seat) -> NamedGroup
        ensures { result ≡ held_by seat }
    {
        NamedGroup(Named::Held(seat))
    }

    // Returns the number that orders holders first.
    fn number(&self) -> u64
        ensures { result ≡ group_number self.now }
    {
        match &self.0 {
            Named::Held(seat) => u64::from(*seat) * 4 + 3,
            Named::Listed(list, tube) => first_byte(tube) * 4 + u64::from(places::number_of(*list)),
        }
    }

    // Returns the name that orders holders with equal numbers.
    fn tube(&self) -> &[u8]
        ensures { result.now ≡ tube_in self.now }
    {
        match &self.0 {
            Named::Held(_) => &[],
            Named::Listed(_, tube) => tube.as_slice(),
        }
    }
}

fn first_byte(tube: &TubeName) -> u64
    ensures byte { result ≡ number_in tube.now }
    ensures few { result < 256 }
{
    match tube.as_slice().first() {
        None => 0,
        Some(byte) => u64::from(*byte),
    }
}

// Compares two names: by length, then by bytes.
fn cmp_names(name: &[u8], other: &[u8]) -> Ordering
    ensures { result ≡ name_cmp name.now other.now }
{
    name.len().cmp(&other.len()).then_with(|| name.cmp(other))
}

impl PartialEq for NamedGroup {
    ghost eq = { eq_by_cmp group_cmp };

    ghost laws = { Cmp.partial_equiv_from_equiv (Cmp.eq_by_cmp_equiv group_total) };

    fn eq(&self, other: &NamedGroup) -> bool {
        self.cmp(other).is_eq()
    }
}

impl Eq for NamedGroup {
    ghost laws = { Cmp.eq_by_cmp_equiv group_total };
}

impl PartialOrd for NamedGroup {
    ghost partial_cmp = { as_partial_cmp group_cmp };

    ghost laws = { Cmp.partial_order_from_agreeing_total group_cmp group_total (λ a b. refl) (λ a b. refl) };

    fn partial_cmp(&self, other: &NamedGroup) -> Option<Ordering> {
        Some(self.cmp(other))
    }
}

impl Ord for NamedGroup {
    ghost cmp = { group_cmp };

    ghost total = { group_total };

    ghost matches_partial_cmp = { λ a b. refl };

    ghost matches_eq = { λ a b. refl };

    fn cmp(&self, other: &NamedGroup) -> Ordering {
        self.number()
            .cmp(&other.number())
            .then_with(|| cmp_names(self.tube(), other.tube()))
    }
}

/// Returns the id of a job.
pub(crate) fn id_of(job: &Job) -> JobId
    ensures id { result ≡ job.now.id }
    ensures fits { result < 2 ^ 64 }
{
    job.id
}

/// Returns the place of a job in its tube's list or among the jobs of its holder. Each job has one.
pub(crate) fn place_of(job: &Job) -> Option<ShelfPlace<NamedGroup>>
    ensures { result ≡ group_place job.now }
{
    let (group, number) = match job.state {
        JobState::Ready => (
            NamedGroup::list(JobList::Ready, &job.tube),
            u64::from(job.pri),
        ),
        JobState::Delayed(due) => (NamedGroup::list(JobList::Delayed, &job.tube), due),
        JobState::Reserved(seat, deadline) => (NamedGroup::held(seat), deadline),
        JobState::Buried(number) => (NamedGroup::list(JobList::Buried, &job.tube), number),
    };
    Some(ShelfPlace::of(group, number, job.id))
}

/// Returns the place of a job among all delays and leases, if it has one.
pub(crate) fn timer_place_of(job: &Job) -> Option<ShelfPlace<Timer>>
    ensures { result ≡ timer_place job.now }
{
    places::place_in_timers(job.id, PriAndState::of(job))
}
