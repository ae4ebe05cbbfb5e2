//! Each call of a shelf, against values found by hand.

use bq_index::{NoMemory, Shelf};
use std::alloc::Global;

fn has(shelf: &Shelf<u64, char>, len: usize, spare: usize) -> bool {
    shelf.len() == len && shelf.spare() == spare
}

// Adds an entry if there is a spare box and no such key.
fn put(shelf: &mut Shelf<u64, char>, key: u64, value: char) -> bool {
    if shelf.spare() == 0 || shelf.get(&key).is_some() {
        return false;
    }
    shelf.insert(key, value);
    true
}

fn puts_two(shelf: &mut Shelf<u64, char>) -> bool {
    has(shelf, 0, 2) && put(shelf, 5, 'a') && put(shelf, 3, 'b') && has(shelf, 2, 0)
}

fn looks_on(shelf: &mut Shelf<u64, char>) -> bool {
    matches!(shelf.next_from(&4), Some((5, 'a')))
        && matches!(shelf.next_from(&3), Some((3, 'b')))
        && shelf.next_from(&6).is_none()
}

fn takes_out(shelf: &mut Shelf<u64, char>) -> bool {
    shelf.remove(&4).is_none()
        && has(shelf, 2, 0)
        && matches!(shelf.remove(&3), Some('b'))
        && has(shelf, 1, 1)
}

fn writes_over(shelf: &mut Shelf<u64, char>) -> bool {
    if let Some(value) = shelf.get_mut(&5) {
        *value = 'c';
    }
    matches!(shelf.get(&5), Some('c')) && shelf.get(&3).is_none()
}

fn works(alloc: Global, shelf: &mut Shelf<u64, char>) -> bool {
    has(shelf, 0, 0)
        && shelf.comparisons() == 0
        && shelf.reserve(alloc, 2).is_ok()
        && puts_two(shelf)
        && looks_on(shelf)
        && takes_out(shelf)
        && writes_over(shelf)
}

#[test]
fn shelf_by_hand(rt: HostRuntime) {
    let mut shelf = Shelf::new();
    let works = works(rt.alloc(), &mut shelf);
    drop(shelf);
    assert!(rt; works && NoMemory.code() == 301);
}
