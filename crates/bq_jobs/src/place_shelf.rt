//! The shelves that keep the places of jobs.
ghost use Rattle.std.specs.Prelude.{◌≡◌, ◌+◌, ◌<◌, ◌≤◌, length, is_some, if◌then◌else◌, IsSome, OnOk, None};
ghost use Rattle.std.specs.BTreeMap.{is_at, insert_entry};
ghost use Rattle.std.specs.Map.{lookup, remove_entry};
ghost use Rattle.std.specs.Option.{ForSome};
ghost use Rattle.bq_index.specs.Shelf.{ComparesFew, Seen};
ghost use Rattle.bq_jobs.specs.Groups.{group_cmp};
ghost use Rattle.bq_jobs.specs.Moves.{CanMove, Moves};
ghost use Rattle.bq_jobs.specs.PlaceOrder.{first_rank, holds_place, rank_in_group, with_place, without_place};

use super::places::{Group, ShelfPlace};
use bq_index::{BoxSource, Parted, Shelf, Shelves};
use bq_job::{JobId, NoMemory};

/// A shelf of places.
pub trait PlaceShelf<P: Ord> {
    /// What a contract sees of it.
    ghost seen: { Self → Seen P (Unit {0}) };

    /// Allocates boxes for a number of places, which includes those in use.
    fn make_room<S: BoxSource>(&mut self, source: &mut S, places: usize) -> Result<(), NoMemory>
        ensures ok { OnOk result (places ≤ length (seen self.new).entries + (seen self.new).spare) }
        ensures entries { (seen self.new).entries ≡ (seen self.old).entries }
        ensures not_fewer { (seen self.old).spare ≤ (seen self.new).spare }
        ensures comparisons { (seen self.new).comparisons ≡ (seen self.old).comparisons };

    /// Adds a place.
    fn add(&mut self, place: P)
        requires spare { 0 < (seen self.old).spare }
        requires absent { lookup (is_at (P.cmp place)) (seen self.old).entries ≡ None }
        ensures entries { (seen self.new).entries
            ≡ insert_entry P.cmp (seen self.old).entries place tt }
        ensures spare { (seen self.new).spare + 1 ≡ (seen self.old).spare }
        ensures comparisons { ComparesFew (seen self.old) (seen self.new) };

    /// Removes a place.
    fn take(&mut self, place: P)
        requires held { IsSome (lookup (is_at (P.cmp place)) (seen self.old).entries) }
        ensures entries { (seen self.new).entries
            ≡ remove_entry (is_at (P.cmp place)) (seen self.old).entries }
        ensures spare { (seen self.new).spare ≡ (seen self.old).spare + 1 }
        ensures comparisons { ComparesFew (seen self.old) (seen self.new) };
}

/// Adds a place, if there is one. Most jobs that are put have none among delays and leases, so the
/// test is made where it is called.
#[inline(always)]
pub(crate) fn enter<G: Ord, O: PlaceShelf<ShelfPlace<G>>>(
    order: &mut O,
    place: Option<ShelfPlace<G>>,
)
    requires spare { ForSome place (λ _. 0 < (O.seen order.old).spare) }
    requires absent { ForSome place (λ p. holds_place G.cmp p (O.seen order.old).entries ≡ None) }
    ensures entries { (O.seen order.new).entries ≡ with_place G.cmp place (O.seen order.old).entries }
    ensures spare { (O.seen order.new).spare + (if is_some place then 1 else 0)
        ≡ (O.seen order.old).spare }
    ensures comparisons { ComparesFew (O.seen order.old) (O.seen order.new) }
{
    if let Some(place) = place {
        order.add(place);
    }
}

/// Removes a place, if there is one.
#[inline(always)]
pub(crate) fn leave<G: Ord, O: PlaceShelf<ShelfPlace<G>>>(
    order: &mut O,
    place: Option<ShelfPlace<G>>,
)
    requires held { ForSome place (λ p. IsSome (holds_place G.cmp p (O.seen order.old).entries)) }
    ensures entries { (O.seen order.new).entries
        ≡ without_place G.cmp place (O.seen order.old).entries }
    ensures spare { (O.seen order.new).spare
        ≡ (O.seen order.old).spare + (if is_some place then 1 else 0) }
    ensures comparisons { ComparesFew (O.seen order.old) (O.seen order.new) }
{
    if let Some(place) = place {
        order.take(place);
    }
}

/// Removes one place, if there is one, and adds another, if there is one.
#[tactic(auto, using(bq_index::proofs::Bound::digits_grow, crate::proofs::Orders::fewer_places))]
pub(crate) fn shift<G: Ord, O: PlaceShelf<ShelfPlace<G>>>(
    order: &mut O,
    from: Option<ShelfPlace<G>>,
    to: Option<ShelfPlace<G>>,
)
    requires { CanMove G.cmp from to (O.seen order.old) }
    ensures { Moves G.cmp from to (O.seen order.old) (O.seen order.new) }
{
    leave(order, from);
    enter(order, to);
}

/// Returns the number and the id at the first place of a group.
pub(crate) fn first_rank<G: Ord + Drop + Copy>(
    order: &mut Shelf<ShelfPlace<G>, ()>,
    group: G,
) -> Option<(u64, JobId)>
    ensures rank { result ≡ first_rank G.cmp group order.old.entries }
    ensures entries { order.new.entries ≡ order.old.entries }
    ensures spare { order.new.spare ≡ order.old.spare }
    ensures comparisons { ComparesFew order.old order.new }
{
    let front = ShelfPlace::of(group, 0, 0);
    let (place, ()) = order.next_from(&front)?;
    rank_in(&group, place)
}

impl<P: Ord + Drop> PlaceShelf<P> for Shelf<P, ()> {
    ghost seen = { λ s. s };

    fn make_room<S: BoxSource>(&mut self, source: &mut S, places: usize) -> Result<(), NoMemory> {
        let more = places.saturating_sub(self.len());
        match self.reserve_from(source, more) {
            Ok(()) => Ok(()),
            Err(_) => Err(NoMemory),
        }
    }

    fn add(&mut self, place: P) {
        self.insert(place, ());
    }

    fn take(&mut self, place: P) {
        let _held = self.remove(&place);
    }
}

/// How many groups have a tree of their own: those of the tubes and of the seats whose numbers are
/// below 1,024. The places of all other groups are in one tree.
pub(crate) const GROUPS: usize = 4096;

/// The places of jobs in the lists of their tubes and at their holders. Most groups have a tree of
/// their own, so to find or to change a place among those of its tube or of its holder takes no
/// longer when there are others.
pub(crate) type Groups = Shelves<ShelfPlace<Group>, ()>;

impl<P: Parted + Drop + Copy> PlaceShelf<P> for Shelves<P, ()> {
    ghost seen = { λ s. s };

    fn make_room<S: BoxSource>(&mut self, source: &mut S, places: usize) -> Result<(), NoMemory> {
        let more = places.saturating_sub(self.len());
        match self.reserve_from(source, more) {
            Ok(()) => Ok(()),
            Err(_) => Err(NoMemory),
        }
    }

    fn add(&mut self, place: P) {
        self.insert(place, ());
    }

    fn take(&mut self, place: P) {
        let _held = self.remove(&place);
    }
}

/// Returns the number and the id at the first place of a group.
#[tactic(auto, using(crate::proofs::GroupRanks::rank_of_part))]
pub(crate) fn first_of_group(groups: &mut Groups, group: Group) -> Option<(u64, JobId)>
    ensures rank { result ≡ first_rank group_cmp group groups.old.entries }
    ensures entries { groups.new.entries ≡ groups.old.entries }
    ensures spare { groups.new.spare ≡ groups.old.spare }
    ensures comparisons { ComparesFew groups.old groups.new }
{
    let front = ShelfPlace::of(group, 0, 0);
    let place = groups.lowest_of_part(&front)?;
    rank_in(&group, &place)
}

// Returns the number and the id of a place, if it is in this group.
fn rank_in<G: Ord>(group: &G, place: &ShelfPlace<G>) -> Option<(u64, JobId)>
    ensures { result ≡ rank_in_group G.cmp group.now (place.now, tt) }
{
    if group.cmp(&place.group).is_eq() {
        Some(place.rank())
    } else {
        None
    }
}
