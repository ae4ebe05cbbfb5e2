//! The slots of the numbers of tubes.
ghost use Rattle.std.specs.Prelude.{◌≡◌, ◌<◌, ◌≤◌, ◌^◌, None, Some, false, set, slice_get, suc, true, get_or, length, IfOk, OnErr, OnOk};
ghost use Rattle.std.specs.Option.{option_map};
ghost use Rattle.bq_jobs.specs.FreeNumbers.{AreAllUsed, AreFreeFrom, names_in, nexts_in, values_in};
ghost use Rattle.bq_jobs.specs.Numbering.{IsGiven, put_at};
ghost use Rattle.bq_jobs.specs.Table.{changed_at, put_value};

use bq_index::Edit;
use bq_job::{NoMemory, TubeName};
use std::alloc::Global;
use std::marker::Model;
use std::mem;

// How many tubes can be registered at the same time. Two bits of a number's 32 are left for what is
// stored about a tube beside it.
const TUBES: usize = 1 << 30;

/// The place of a number: the name of its tube, if the number is in use, and the tube's value.
#[derive(Drop)]
pub(crate) struct Slot<V: Drop> {
    pub(crate) name: Option<TubeName>,
    // Of a free number: another number that is free, or one that has no slot yet. Of a number in
    // use, it means nothing.
    pub(crate) next_free: u32,
    // Of a free number, it is what the last tube left.
    pub(crate) value: V,
}

impl<V: Drop> Model for Slot<V> {
    ghost use Rattle.bq_jobs.specs.FreeNumbers.{SlotState};

    ghost Value = { SlotState V };

    ghost view = { λ s. record { name = s.name; next = s.next_free; value = s.value } };
}

/// Returns true if a number has a slot and is free.
pub(crate) fn is_free<V: Drop>(slots: &[Slot<V>], number: u32) -> bool
    ensures slot { result ≡ true → number < length slots.now }
    ensures free { result ≡ true → get_or (names_in slots.now) number None ≡ None }
    ensures used { result ≡ false → number < length slots.now → get_or (names_in slots.now) number None ≡ None → ⊥ }
{
    match slots.get(number as usize) {
        None => false,
        Some(slot) => slot.name.is_none(),
    }
}

/// Returns true if a number has a slot with this name.
pub(crate) fn is_named<V: Drop>(slots: &[Slot<V>], number: u32, name: &TubeName) -> bool
    ensures { result ≡ true → get_or (names_in slots.now) number None ≡ Some name.now }
{
    match slots.get(number as usize) {
        None => false,
        Some(slot) => match &slot.name {
            None => false,
            Some(own) => own == name,
        },
    }
}

// Changes the slot of a number. Returns the next free number that the slot named before.
#[tactic(auto, using(crate::proofs::FreeLemmas::names_changed, crate::proofs::FreeLemmas::nexts_changed, crate::proofs::FreeLemmas::values_changed))]
fn change<V: Drop>(slots: &mut Vec<Slot<V>, Global>, number: u32, slot: Slot<V>) -> u32
    requires { number < length slots.old.items }
    ensures names { names_in slots.new.items ≡ put_at (names_in slots.old.items) number slot.name }
    ensures nexts { nexts_in slots.new.items ≡ set (nexts_in slots.old.items) number slot.next }
    ensures values { values_in slots.new.items ≡ put_value (values_in slots.old.items) number slot.value }
    ensures next { result ≡ get_or (nexts_in slots.old.items) number 0 }
    ensures as_many { length slots.new.items ≡ length slots.old.items }
{
    mem::replace(&mut slots[number as usize], slot).next_free
}

// Adds a slot for the next number that has none, which the tube gets.
#[tactic(auto, using(crate::proofs::FreeLemmas::pushed))]
fn append<V: Drop>(
    slots: &mut Vec<Slot<V>, Global>,
    name: &TubeName,
    value: V,
) -> Result<u32, NoMemory>
    requires { length slots.old.items ≤ 2 ^ 30 }
    ensures given { IfOk result (λ n. IsGiven n name.now (names_in slots.old.items) (names_in slots.new.items)) }
    ensures values { IfOk result (λ n. values_in slots.new.items ≡ put_value (values_in slots.old.items) n value) }
    ensures last { IfOk result (λ n. n ≡ length slots.old.items) }
    ensures longer { OnOk result (length slots.new.items ≡ suc (length slots.old.items)) }
    ensures same { OnErr result (slots.new.items ≡ slots.old.items) }
{
    let number = slots.len();
    if number >= TUBES {
        return Err(NoMemory);
    }
    let slot = Slot {
        name: Some(*name),
        next_free: u32::MAX,
        value,
    };
    match slots.push(slot) {
        Ok(()) => Ok(number as u32),
        Err(_) => Err(NoMemory),
    }
}

/// Gives a free number to a tube with this value: the one that was freed last, or the next one that has no slot.
pub(crate) fn give<V: Drop>(
    slots: &mut Vec<Slot<V>, Global>,
    free: &mut u32,
    name: &TubeName,
    value: V,
) -> Result<u32, NoMemory>
    requires few { length slots.old.items ≤ 2 ^ 30 }
    requires chained { AreFreeFrom free.old slots.old.items }
    ensures given { IfOk result (λ n. IsGiven n name.now (names_in slots.old.items) (names_in slots.new.items)) }
    ensures values { IfOk result (λ n. values_in slots.new.items ≡ put_value (values_in slots.old.items) n value) }
    ensures near { IfOk result (λ n. n ≤ length slots.old.items) }
    ensures reused { IfOk result (λ n. n ≡ length slots.old.items → AreAllUsed (names_in slots.old.items)) }
    ensures chained { AreFreeFrom free.new slots.new.items }
    ensures same { OnErr result (slots.new.items ≡ slots.old.items) }
{
    let number = *free;
    if !is_free(slots.as_slice(), number) {
        return append(slots, name, value);
    }
    let slot = Slot {
        name: Some(*name),
        next_free: u32::MAX,
        value,
    };
    *free = change(slots, number, slot);
    Ok(number)
}

/// Frees a number: its slot has no name, and names another free number.
#[tactic(auto, using(crate::proofs::FreeLemmas::names_changed, crate::proofs::FreeLemmas::nexts_changed, crate::proofs::FreeLemmas::slots_alike))]
pub(crate) fn release<V: Drop>(slots: &mut Vec<Slot<V>, Global>, number: u32, next: u32)
    requires { number < length slots.old.items }
    ensures names { names_in slots.new.items ≡ put_at (names_in slots.old.items) number None }
    ensures nexts { nexts_in slots.new.items ≡ set (nexts_in slots.old.items) number next }
    ensures values { values_in slots.new.items ≡ values_in slots.old.items }
    ensures as_many { length slots.new.items ≡ length slots.old.items }
{
    let slot = &mut slots[number as usize];
    slot.name = None;
    slot.next_free = next;
}

/// Returns the value at a number, if it has a slot.
#[tactic(auto, using(crate::proofs::FreeLemmas::value_of_slot))]
pub(crate) fn value_at<V: Drop>(slots: &[Slot<V>], number: u32) -> Option<&V>
    ensures { option_map (λ v. v.now) result ≡ slice_get (values_in slots.now) number }
{
    match slots.get(number as usize) {
        None => None,
        Some(slot) => Some(&slot.value),
    }
}

/// Changes the value at a number in place. Returns what the change returns.
#[tactic(auto, using(crate::proofs::FreeLemmas::slots_alike, crate::proofs::FreeLemmas::values_edited))]
pub(crate) fn edit_at<V: Drop, T: Drop, E: Edit<V, T>>(
    slots: &mut Vec<Slot<V>, Global>,
    number: u32,
    edit: &E,
) -> T
    requires { number < length slots.old.items }
    ensures told { Some result ≡ option_map (E.told edit.now) (slice_get (values_in slots.old.items) number) }
    ensures values { values_in slots.new.items ≡ changed_at (E.edited edit.now) number (values_in slots.old.items) }
    ensures names { names_in slots.new.items ≡ names_in slots.old.items }
    ensures nexts { nexts_in slots.new.items ≡ nexts_in slots.old.items }
{
    edit.edit(&mut slots[number as usize].value)
}
