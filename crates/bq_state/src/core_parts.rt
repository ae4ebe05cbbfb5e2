//! The state of a core.
ghost use Rattle.std.specs.Prelude.{◌≡◌};
ghost use Rattle.bq_state.specs.Soundness.{Soundness, Soundness-prop};

use crate::job_store::JobTest;
use crate::known::Known;
use crate::seats::SeatRecord;
use crate::store::Store;
use crate::tubes::TubeEntry;
use crate::waiting::WaitingList;
use crate::{job_store, seats};
use bq_core_api::Config;
use bq_job::{JobId, Moment, Seat, TubeName};
use bq_jobs::TubeNumber;
use std::alloc::Global;

/// The state of a core. Its invariants are stated here, once: code that builds or changes a state
/// has to keep them, and code that reads one may use them.
#[derive(Drop)]
pub struct CoreParts {
    pub config: Config,
    /// The jobs, and what is kept of each tube that exists.
    pub store: Store,
    pub seats: Vec<SeatRecord, Global>,
    /// The waiting clients, in order of their tickets.
    pub waiting: WaitingList,
    /// What is known without a search.
    pub known: Known,
    /// The largest moment of any step so far, in milliseconds.
    pub moment: Moment,
    /// The id of the next job.
    pub next_id: JobId,
    /// The last burial number that was given out.
    pub burials: u64,
    /// The last ticket that was given to a client that began to wait.
    pub tickets: u64,
    /// True if puts are rejected from now on.
    pub draining: bool,
    /// How many reservations have expired.
    pub timeouts: u64,
    /// How many puts were accepted.
    pub puts: u64,
    /// How many connections were opened.
    pub connections: u64,
    pub ghost sound: { Soundness store.jobs.jobs seats.items store.tubes waiting known next_id draining } by { Soundness-prop store.jobs.jobs seats.items
        store.tubes waiting known next_id draining },
}

impl CoreParts {
    ghost use Rattle.std.specs.{List.list_any, Option.option_map, Prelude.{count_by, unwrap_or, ◌&&◌}};
    ghost use Rattle.bq_job.specs.machine.{Changes.{is_held_by, is_ready, is_waiting, job_with, seat_with}, JobStates.{is_delayed, is_reserved}};
    ghost use Rattle.bq_state.specs.{CoreParts.{entry_in, machine_of}, JobChanges.{is_passed_by, passes, ttr_held_by}};
    ghost use Rattle.bq_state.specs.{Keeping.OnlySearches, SeatStates.{is_asking, is_connected, is_free}, TubesSeen.fresh_entry};

    /// Returns true if there is a seat with this number and no client is connected to it.
    pub fn is_free(&self, seat: Seat) -> bool
        ensures { result ≡ is_free (seat_with seat self.now.seats.items) }
    {
        match seats::find(self.seats.as_slice(), seat) {
            None => false,
            Some(client) => !client.is_connected(),
        }
    }

    /// Returns true if a client is connected at the seat.
    pub fn is_connected(&self, seat: Seat) -> bool
        ensures { result ≡ is_connected (seat_with seat self.now.seats.items) }
    {
        match seats::find(self.seats.as_slice(), seat) {
            None => false,
            Some(client) => client.is_connected(),
        }
    }

    /// Returns true if the client at the seat may make a request: it is connected and doesn't wait.
    pub fn is_asking(&self, seat: Seat) -> bool
        ensures { result ≡ is_asking (seat_with seat self.now.seats.items) }
    {
        match seats::find(self.seats.as_slice(), seat) {
            None => false,
            Some(client) => client.is_connected() && !client.is_waiting(),
        }
    }

    /// Returns true if there is a job with this id and it passes the test.
    #[tactic(auto, using(crate::proofs::PartsLemmas::compared_sound))]
    pub fn has_job(&mut self, id: JobId, test: JobTest) -> bool
        ensures has { result ≡ is_passed_by (passes test) (job_with id (machine_of self.old).jobs) }
        ensures kept { OnlySearches 1 self.old self.new }
    {
        match self.store.get(id) {
            None => false,
            Some(job) => job_store::passes(job, test),
        }
    }

    /// Returns how long the client at the seat may hold the job with this id, in seconds, if it
    /// holds it.
    #[tactic(auto, using(crate::proofs::PartsLemmas::compared_sound))]
    pub fn time_to_run(&mut self, id: JobId, seat: Seat) -> Option<u32>
        ensures ttr { result ≡ ttr_held_by seat (job_with id (machine_of self.old).jobs) }
        ensures kept { OnlySearches 1 self.old self.new }
    {
        match self.store.get(id) {
            None => None,
            Some(job) => if job_store::is_held_by(job, seat) {
                Some(job.ttr())
            } else {
                None
            },
        }
    }

    /// Returns true if some job is ready.
    #[tactic(auto, using(crate::proofs::ClientLemmas::some_pass))]
    pub fn has_ready(&self) -> bool
        ensures { result ≡ list_any is_ready self.now.store.jobs.jobs }
    {
        self.known.tally.ready > 0
    }

    /// Returns true if some client holds a job.
    #[tactic(auto, using(crate::proofs::ClientLemmas::some_pass))]
    pub fn has_lease(&self) -> bool
        ensures { result ≡ list_any (λ j. is_reserved j.state) self.now.store.jobs.jobs }
    {
        self.known.tally.reserved > 0
    }

    /// Returns true if some job is delayed.
    #[tactic(auto, using(crate::proofs::ClientLemmas::some_pass))]
    pub fn has_delayed(&self) -> bool
        ensures { result ≡ list_any (λ j. is_delayed j.state) self.now.store.jobs.jobs }
    {
        self.known.tally.delayed > 0
    }

    /// Returns true if the client at the seat holds a job. If no client holds one, nothing is
    /// searched.
    #[tactic(auto, using(crate::proofs::PartsLemmas::compared_sound, crate::proofs::DueLemmas::held_some, crate::proofs::DueLemmas::none_held))]
    pub(crate) fn holds_some(&mut self, seat: Seat) -> bool
        ensures holds { result ≡ list_any (is_held_by seat) self.old.store.jobs.jobs }
        ensures kept { OnlySearches 1 self.old self.new }
    {
        if !self.has_lease() {
            return false;
        }
        self.store.first_held(seat).is_some()
    }

    /// Returns how many clients wait.
    #[tactic(auto, using(crate::proofs::WaitingLemmas::many_wait))]
    pub fn waiter_count(&self) -> u64
        ensures { result ≡ count_by is_waiting self.now.seats.items }
    {
        self.waiting.as_slice().len() as u64
    }

    /// Returns true if some client waits.
    #[tactic(auto, using(crate::proofs::ClientLemmas::some_pass))]
    pub fn has_waiter(&self) -> bool
        ensures { result ≡ list_any is_waiting self.now.seats.items }
    {
        self.waiter_count() > 0
    }

    /// Returns the entry of a tube. A tube without one is not paused, nothing was counted in it, and
    /// no job and no client is there.
    #[tactic(auto, using(crate::proofs::NameLemmas::entry_told))]
    pub fn entry_of(&self, tube: &TubeName, hint: TubeNumber) -> Option<&TubeEntry>
        ensures { unwrap_or (option_map (λ t. t.now) result) fresh_entry
            ≡ entry_in (machine_of self.now) tube.now }
    {
        self.store.entry_of(tube, hint)
    }
}
