//! Changes of tubes in which pauses begin and end. The ends of the pauses are kept in order.
ghost use Rattle.std.specs.{Cmp.Lexicographic.slice_cmp, Map.remove_entry, Option.ForSome, Ordering.nat_cmp};
ghost use Rattle.std.specs.Prelude.{IfOk, None, Some, if◌then◌else◌, is_some, length, map, true, ◌+◌, ◌<◌, ◌≡◌, ◌≤◌};
ghost use Rattle.bq_index.specs.Order.{InOrder};
ghost use Rattle.bq_jobs.specs.Numbering.{IsPaired};
ghost use Rattle.bq_state.specs.TubesSeen.{edited_at, entry_changed, is_named_at};
ghost use Rattle.bq_state.specs.{PauseEnds.{AreApart, AreEnds, end_cmp, end_of}, TubesSeen.{record_at, with_ended}};
ghost use Rattle.bq_state.specs.PauseEnds.{first_end, found_end, has_end, if_over, is_end_in, number_at, pause_at, paused_count};
ghost use Rattle.bq_state.specs.PauseEnds.{with_end, without_end};

use super::entry::{PauseTimer, TubeChange, TubeEntry};
use bq_index::{Catalog, Test};
use bq_job::{Moment, NoMemory, TubeName};
use bq_jobs::{Tube, TubeNumber, TubeTable};
use std::alloc::Global;

// Returns the end of the pause of the tube with this name, if it is paused.
#[tactic(auto, using(crate::proofs::EndMoves::no_end, crate::proofs::EndMoves::some_end))]
fn end_of(kept: &TubeTable<TubeEntry>, name: &TubeName, hint: TubeNumber) -> Option<PauseEnd>
    ensures end { result ≡ end_of (number_at name.now kept.now.tubes.numbers)
        (pause_at name.now (map record_at kept.now.entries)) }
    ensures apart { AreApart kept.now }
    ensures ordered { InOrder (slice_cmp nat_cmp) kept.now.entries }
{
    let number = kept.number_of(name, hint)?;
    kept.get_numbered(name, number).end(number)
}

// Returns the tube whose pause has this end.
#[tactic(auto, using(crate::proofs::NumberLemmas::number_is, crate::proofs::NumberLemmas::end_numbered))]
fn tube_of(kept: &TubeTable<TubeEntry>, end: &PauseEnd) -> Tube
    requires { is_end_in kept.now.tubes.numbers end.now (map record_at kept.now.entries) ≡ true }
    ensures number { end.now.number ≡ number_at result kept.now.tubes.numbers }
    ensures apart { AreApart kept.now }
{
    Tube::new(kept.name_of(end.number).unwrap(), end.number)
}

/// Changes the tube with this name. The ends of pauses are accessed only if it is paused.
#[tactic(auto, using(crate::proofs::EndMoves::end_held))]
pub(crate) fn change(
    kept: &mut TubeTable<TubeEntry>,
    ends: &mut PauseEnds,
    name: &TubeName,
    hint: TubeNumber,
    what: TubeChange,
)
    requires { AreEnds kept.old ends.old }
    ensures tubes { kept.new.tubes ≡ kept.old.tubes }
    ensures kept { kept.new.entries ≡ edited_at name.now (entry_changed what) kept.old.entries }
    ensures ends { AreEnds kept.new ends.new }
    ensures ordered { InOrder (slice_cmp nat_cmp) kept.old.entries }
{
    match what {
        TubeChange::Pause(_, _) => {
            let from = end_of(kept, name, hint);
            leave(ends, from);
            let _changed = kept.edit(name, hint, &what);
            let to = end_of(kept, name, hint);
            enter(ends, to);
        }
        TubeChange::CountPut | TubeChange::CountDelete => {
            let _changed = kept.edit(name, hint, &what);
        }
    }
}

/// Drops the entry with this name, if there is one.
#[tactic(auto, using(crate::proofs::EndMoves::end_held))]
pub(crate) fn drop_entry(kept: &mut TubeTable<TubeEntry>, ends: &mut PauseEnds, name: &TubeName)
    requires { AreEnds kept.old ends.old }
    ensures numbers { kept.new.tubes.numbers ≡ remove_entry (is_named_at name.now) kept.old.tubes.numbers }
    ensures paired { IsPaired kept.new.tubes }
    ensures kept { kept.new.entries ≡ remove_entry (is_named_at name.now) kept.old.entries }
    ensures ends { AreEnds kept.new ends.new }
    ensures ordered { InOrder (slice_cmp nat_cmp) kept.old.entries }
{
    let from = end_of(kept, name, TubeNumber::unknown());
    leave(ends, from);
    kept.remove(name);
}

// Ends the pause with this end, which is the first one and is due.
#[tactic(auto, using(std::proofs::lemmas::Grind::common_steps, crate::proofs::EndLemmas::over_in))]
fn end_pause(kept: &mut TubeTable<TubeEntry>, ends: &mut PauseEnds, end: PauseEnd, moment: Moment)
    requires ends { AreEnds kept.old ends.old }
    requires first { Some end ≡ if_over moment (first_end ends.old.entries) }
    requires ordered { InOrder end_cmp ends.old.entries }
    ensures tubes { kept.new.tubes ≡ kept.old.tubes }
    ensures kept { with_ended moment kept.new.entries ≡ with_ended moment kept.old.entries }
    ensures fewer { paused_count kept.new.entries < paused_count kept.old.entries }
    ensures ends { AreEnds kept.new ends.new }
{
    let tube = tube_of(kept, &end);
    let _ended = kept.edit(tube.name(), tube.number(), &PauseTimer { moment });
    leave(ends, Some(end));
}

/// Ends pauses that are due. No other tube is accessed.
#[tactic(auto, using(crate::proofs::EndLemmas::none_over_yet, crate::proofs::PauseLemmas::none_ended, crate::proofs::PauseLemmas::none_over))]
pub(crate) fn end_all(kept: &mut TubeTable<TubeEntry>, ends: &mut PauseEnds, moment: Moment)
    requires { AreEnds kept.old ends.old }
    ensures tubes { kept.new.tubes ≡ kept.old.tubes }
    ensures kept { kept.new.entries ≡ with_ended moment kept.old.entries }
    ensures ends { AreEnds kept.new ends.new }
{
    while let Some(end) = first_over(ends, moment) {
        end_pause(kept, ends, end, moment);
    }
}

/// The end of a tube's pause. Ends are ordered by moment, then by the number of the tube.
#[derive(Clone, Copy, PartialEq, Eq, PartialOrd, Ord)]
pub(crate) struct PauseEnd {
    pub(crate) until: Moment,
    pub(crate) number: TubeNumber,
}

/// The ends of pauses, one for each paused tube.
pub(crate) type PauseEnds = Catalog<PauseEnd, ()>;

// A test that each end passes.
#[derive(Clone, Copy)]
struct Each;

impl Test<PauseEnd, ()> for Each {
    ghost use Rattle.std.specs.Prelude.{true};

    ghost passed = { λ _ _ _. true };

    fn passes(&self, _end: &PauseEnd, _none: &()) -> bool {
        true
    }
}

/// Returns the first end, if there is one.
pub(crate) fn first(ends: &PauseEnds) -> Option<PauseEnd>
    ensures end { result ≡ first_end ends.now.entries }
    ensures ordered { InOrder end_cmp ends.now.entries }
{
    match ends.first(&Each) {
        None => None,
        Some((end, _)) => Some(*end),
    }
}

/// Returns the first end, if it is due.
pub(crate) fn first_over(ends: &PauseEnds, moment: Moment) -> Option<PauseEnd>
    ensures end { result ≡ if_over moment (first_end ends.now.entries) }
    ensures ordered { InOrder end_cmp ends.now.entries }
{
    match first(ends) {
        None => None,
        Some(end) => if end.until <= moment { Some(end) } else { None },
    }
}

/// Reserves boxes for the ends of the pauses of `tubes` tubes and of one more.
pub(crate) fn make_room(ends: &mut PauseEnds, alloc: Global, tubes: usize) -> Result<(), NoMemory>
    ensures entries { ends.new.entries ≡ ends.old.entries }
    ensures not_fewer { ends.old.spare ≤ ends.new.spare }
    ensures room { IfOk result (λ _. tubes + 1 ≤ length ends.new.entries + ends.new.spare) }
{
    let Some(wanted) = tubes.checked_add(1) else {
        return Err(NoMemory);
    };
    let more = wanted.saturating_sub(ends.len());
    match ends.reserve(alloc, more) {
        Ok(()) => Ok(()),
        Err(_) => Err(NoMemory),
    }
}

/// Inserts an end, if there is one.
pub(crate) fn enter(ends: &mut PauseEnds, end: Option<PauseEnd>)
    requires spare { ForSome end (λ _. 0 < ends.old.spare) }
    requires absent { ForSome end (λ e. found_end e ends.old.entries ≡ None) }
    ensures entries { ends.new.entries ≡ with_end end ends.old.entries }
    ensures spare { ends.new.spare + (if is_some end then 1 else 0) ≡ ends.old.spare }
{
    if let Some(end) = end {
        ends.insert(end, ());
    }
}

/// Removes an end, if there is one.
pub(crate) fn leave(ends: &mut PauseEnds, end: Option<PauseEnd>)
    requires { ForSome end (λ e. has_end e ends.old.entries ≡ true) }
    ensures entries { ends.new.entries ≡ without_end end ends.old.entries }
    ensures ordered { ForSome end (λ _. InOrder end_cmp ends.old.entries) }
    ensures spare { ends.new.spare ≡ ends.old.spare + (if is_some end then 1 else 0) }
{
    if let Some(end) = end {
        let _held = ends.remove(&end);
    }
}
