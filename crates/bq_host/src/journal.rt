//! The journal of the steps that a core took.
ghost use Rattle.std.specs.Prelude.{◌≡◌, ◌<◌, ◌≤◌, [], IfOk, IfSome, IsNone, IsSome, IsTrue, Option, length, true};
ghost use Rattle.bq_job.specs.beside.StepBody.{has_body};
ghost use Rattle.bq_job.specs.declared.step.Step.{Step};
ghost use Rattle.bq_host.specs.Journals.{with_entry, without_entry};

use bq_core_api::Outs;
use bq_job::{Entry, Moment, NoMemory, Seat, Step};
use std::alloc::Global;
use std::marker::Model;

/// The source of the copy of a step for its entry: `SharedBodies` in a run. Contracts say by it that
/// a copy was refused.
pub trait CopySource {
    /// This source, as it was before, refused a copy of this step.
    ghost refused: { Self → Step → Type 0 };

    /// This source, as it was before, was asked once for a copy of this step, returned this, and is
    /// the second one now.
    ghost asked: { Self → Step → Option Step → Self → Type 0 } = { λ _ _ _ _. Unit {0} };

    /// Returns a copy of the step, or `None` if it is refused.
    fn copy_of(&mut self, what: &Step) -> Option<Step>
        ensures same { IfSome result (λ step. step ≡ what.now) }
        ensures refused { IsNone result → refused self.old what.now }
        ensures asked { asked self.old what.now result self.new };
}

/// Copies that share the body of a put. A copy is refused only if `Arc` refuses another reference
/// to that body.
#[derive(Drop)]
pub struct SharedBodies;

impl CopySource for SharedBodies {
    ghost refused = { λ source step. IsTrue (has_body step) };

    fn copy_of(&mut self, what: &Step) -> Option<Step> {
        what.share().ok()
    }
}

/// The entries of the steps that were taken, as long as there is room for them.
#[derive(Drop)]
pub struct Journal {
    entries: Vec<Entry, Global>,
    capacity: usize,
    whole: bool,
}

impl Model for Journal {
    ghost use Rattle.std.specs.Prelude.{◌≤◌};
    ghost use Rattle.std.specs.Vec.{vec_capacity};
    ghost use Rattle.bq_host.specs.Journals.{JournalState};

    ghost Value = { JournalState };

    ghost view = { λ j. record { entries = j.entries.items; capacity = j.capacity; whole = j.whole } };

    ghost invariant = { λ j. j.capacity ≤ vec_capacity j.entries };
}

impl Journal {
    /// Allocates an empty journal with room for this many entries.
    pub fn new(alloc: Global, capacity: usize) -> Result<Journal, NoMemory>
        ensures { IfOk result
            (λ journal. journal ≡ record { entries = []; capacity = capacity; whole = true }) }
    {
        let Ok(entries) = Vec::with_capacity(alloc, capacity) else {
            return Err(NoMemory);
        };
        Ok(Journal {
            entries,
            capacity,
            whole: true,
        })
    }

    /// Returns a copy of the step from this source, which is asked for it once. Returns `None` if
    /// there is no room for its entry, and then asks for none, or if the source refuses the copy.
    pub fn copy<S: CopySource>(&self, source: &mut S, what: &Step) -> Option<Step>
        ensures same { IfSome result (λ step. step ≡ what.now) }
        ensures room { IsSome result → length self.now.entries < self.now.capacity }
        ensures refused { IsNone result → length self.now.entries < self.now.capacity
            → S.refused source.old what.now }
        ensures asked { length self.now.entries < self.now.capacity
            → S.asked source.old what.now result source.new }
        ensures unasked { self.now.capacity ≤ length self.now.entries → source.new ≡ source.old }
    {
        if self.entries.len() >= self.capacity {
            return None;
        }
        source.copy_of(what)
    }

    /// Adds the entry of the step that has just been taken, with this copy of the step and with
    /// the outcome that the core reported. The journal is no longer complete if there is no copy,
    /// or if a body could not be shared in the step.
    pub fn note(&mut self, at: Moment, seat: Seat, copy: Option<Step>, outs: &Outs)
        requires room { IsSome copy → length self.old.entries < self.old.capacity }
        ensures without { IsNone copy → self.new ≡ without_entry self.old }
        ensures added { IfSome copy (λ step. self.new
            ≡ with_entry (record { moment = at; seat = seat; step = step; left_out = outs.now.left_out })
            outs.now.unshared self.old) }
    {
        let Some(step) = copy else {
            self.whole = false;
            return;
        };
        self.entries
            .push(Entry {
                moment: at,
                seat,
                step,
                left_out: outs.left_out(),
            })
            .unwrap();
        self.whole = self.whole && !outs.unshared();
    }

    /// Returns the entries so far, in the order in which their steps were taken.
    pub fn entries(&self) -> &[Entry]
        ensures { result.now ≡ self.now.entries }
    {
        self.entries.as_slice()
    }

    /// Returns true if every step has its entry, and each body could be shared in it.
    pub fn whole(&self) -> bool
        ensures { result ≡ self.now.whole }
    {
        self.whole
    }
}
