//! Which entries may be of tubes that have gone.
ghost use Rattle.std.specs.{Option.option_copied, Prelude.{◌≡◌}};
ghost use Rattle.bq_state.specs.Leaving.{exists_in, gone_all, gone_of, gone_unless};
ghost use Rattle.bq_state.specs.MaybeGoneTubes.{is_nothing, with_existing, with_gone};

use crate::seats::SeatRecord;
use crate::store::Store;
use crate::tubes::Roles;
use bq_job::TubeName;
use bq_jobs::{Tube, TubeNumber};

/// Which tubes may have gone while their entries are still kept. Only these are checked when
/// entries are dropped.
#[derive(Drop)]
pub enum MaybeGone {
    /// None: each entry is of a tube that exists.
    Nothing,
    /// At most this tube, which a job, a user or a watcher left, or whose entry is new.
    Tube(Tube),
    /// Any tube.
    Any,
}

impl MaybeGone {
    /// Returns true if no tube may have gone.
    pub(crate) fn is_nothing(&self) -> bool
        ensures { result ≡ is_nothing self.now }
    {
        match self {
            MaybeGone::Nothing => true,
            _ => false,
        }
    }

    /// This tube may have gone too. It is not inlined, since it is rare and copies a name.
    #[inline(never)]
    pub(crate) fn add_tube(&mut self, name: &TubeName, hint: TubeNumber)
        ensures { self.new ≡ with_gone name.now self.old }
    {
        let is_alone = match &*self {
            MaybeGone::Nothing => true,
            MaybeGone::Tube(gone) => gone.name() == name,
            MaybeGone::Any => false,
        };
        if is_alone {
            *self = MaybeGone::Tube(Tube::new(name, hint));
        } else {
            *self = MaybeGone::Any;
        }
    }

    /// This tube exists.
    pub(crate) fn remove_tube(&mut self, name: &TubeName)
        ensures { self.new ≡ with_existing name.now self.old }
    {
        let is_alone = match &*self {
            MaybeGone::Tube(gone) => gone.name() == name,
            _ => false,
        };
        if is_alone {
            *self = MaybeGone::Nothing;
        }
    }

    // The tube may have gone, unless its counts show that it exists.
    fn add_unless_there(&mut self, store: &Store, tube: &Tube)
        ensures { self.new ≡ gone_unless (exists_in store.now.tubes tube.now) tube.now self.old }
    {
        if !store.is_tube(tube.name(), tube.number()) {
            self.add_tube(tube.name(), tube.number());
        }
    }

    // Does the same for each of these tubes.
    #[tactic(auto, using(crate::proofs::LoopLemmas::folded_more))]
    fn add_tubes(&mut self, store: &Store, watched: &[Tube])
        ensures { self.new ≡ gone_all store.now.tubes watched.now self.old }
    {
        for i in 0..watched.len() {
            self.add_unless_there(store, &watched[i]);
        }
    }

    /// Marks each tube as possibly gone that the seat used or watched, and whose counts, without
    /// this seat, show no job and no client. Only the roles in `what` matter.
    #[inline(always)]
    pub(crate) fn leave(&mut self, store: &Store, client: Option<&SeatRecord>, what: Roles)
        ensures { self.new ≡ gone_of what store.now.tubes (option_copied client.entry) self.old }
    {
        let Some(client) = client else {
            return;
        };
        if what.using {
            self.add_unless_there(store, client.used());
        }
        if what.watching {
            self.add_tubes(store, client.watched());
        }
    }
}
