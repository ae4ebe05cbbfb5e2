//! Boxes are allocated one by one, and those before a failure are kept.

use bq_index::{BoxSource, NoMemory, Shelf};
use std::alloc::Global;
use std::mem::size_of_val;

/// A heap in which one of the allocations fails. It records the size of its last box.
#[derive(Drop)]
struct Refusing {
    heap: Global,
    asked: usize,
    refused: usize,
    size: usize,
}

impl BoxSource for Refusing {
    fn box_of<T: Drop>(&mut self, value: T) -> Result<Box<T>, NoMemory> {
        self.asked = self.asked.saturating_add(1);
        self.size = size_of_val(&value);
        if self.asked == self.refused {
            return Err(NoMemory);
        }
        self.heap.box_of(value)
    }
}

fn make_refusing(heap: Global, refused: usize) -> Refusing {
    Refusing {
        heap,
        asked: 0,
        refused,
        size: 0,
    }
}

/// The allocation of three boxes fails at this one; then this many were requested, and this many
/// are spare.
static REFUSALS: &[(usize, usize, usize)] = &[(4, 3, 3), (1, 1, 0), (2, 2, 1), (3, 3, 2)];

fn reserves_three(
    heap: Global,
    shelf: &mut Shelf<u64, u64>,
    refused: usize,
    asked: usize,
    spare: usize,
) -> bool {
    let mut source = make_refusing(heap, refused);
    let is_made = shelf.reserve_from(&mut source, 3).is_ok();
    // Spare boxes are not requested again.
    is_made == (spare == 3)
        && source.asked == asked
        && shelf.spare() == spare
        && shelf.reserve_from(&mut source, spare).is_ok()
        && source.asked == asked
}

fn all_reserve_three(heap: Global) -> bool {
    for (refused, asked, spare) in REFUSALS {
        let mut shelf = Shelf::new();
        let is_right = reserves_three(heap, &mut shelf, *refused, *asked, *spare);
        drop(shelf);
        if !is_right {
            return false;
        }
    }
    true
}

// Returns true if each box of a shelf has 24 bytes besides its key, of eight bytes, and its value.
fn has_boxes_of<V: Drop>(heap: Global, shelf: &mut Shelf<u64, V>, value: usize) -> bool {
    let mut source = make_refusing(heap, 0);
    shelf.reserve_from(&mut source, 1).is_ok() && source.size == value.saturating_add(32)
}

fn are_small(heap: Global) -> bool {
    let mut keys: Shelf<u64, ()> = Shelf::new();
    let mut entries: Shelf<u64, (u64, u64)> = Shelf::new();
    let are_small = has_boxes_of(heap, &mut keys, 0) && has_boxes_of(heap, &mut entries, 16);
    drop(keys);
    drop(entries);
    are_small
}

// A chain of spare boxes that is far longer than the stack is deep is freed, one box after another.
fn frees_a_million(heap: Global) -> bool {
    let mut shelf: Shelf<u64, u64> = Shelf::new();
    let are_made = shelf.reserve(heap, 1_000_000).is_ok() && shelf.spare() == 1_000_000;
    drop(shelf);
    are_made
}

#[test]
fn boxes_of_a_shelf(rt: HostRuntime) {
    let heap = rt.alloc();
    assert!(rt; all_reserve_three(heap) && are_small(heap) && frees_a_million(heap));
}
