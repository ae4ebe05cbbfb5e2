//! How many keys a call compares.
ghost use Rattle.std.specs.Prelude.{◌≡◌};
ghost use Rattle.bq_index.specs.Digits.{binary_digits};

use bq_index::Shelf;

/// Numbers of binary digits, evaluated by the definition.
fn digits_by_hand()
    ensures below { binary_digits 1023 ≡ 10 }
    ensures above { binary_digits 1024 ≡ 11 }
    ensures many { binary_digits 10001 ≡ 14 }
{}

/// The fewest and the most comparisons that a call made.
#[derive(Clone, Copy)]
struct Spread {
    fewest: u64,
    most: u64,
}

impl Spread {
    fn none() -> Spread {
        Spread {
            fewest: u64::MAX,
            most: 0,
        }
    }

    fn note(&mut self, before: u64, after: u64) {
        let made = after.saturating_sub(before);
        self.fewest = self.fewest.min(made);
        self.most = self.most.max(made);
    }
}

/// Calls that leave the shelf as it was.
fn look(shelf: &mut Shelf<u64, u64>, key: u64, spread: &mut Spread) {
    let before = shelf.comparisons();
    let _ = shelf.get(&key);
    let got = shelf.comparisons();
    let _ = shelf.get_mut(&key);
    let lent = shelf.comparisons();
    let _ = shelf.next_from(&key);
    let next = shelf.comparisons();
    spread.note(before, got);
    spread.note(got, lent);
    spread.note(lent, next);
}

/// Adds an entry as `put` does, and counts only the insertion.
fn add(shelf: &mut Shelf<u64, u64>, key: u64, spread: &mut Spread) {
    if shelf.spare() > 0 && shelf.get(&key).is_none() {
        let before = shelf.comparisons();
        shelf.insert(key, key);
        spread.note(before, shelf.comparisons());
    }
}

fn take(shelf: &mut Shelf<u64, u64>, key: u64, spread: &mut Spread) {
    let before = shelf.comparisons();
    let _ = shelf.remove(&key);
    spread.note(before, shelf.comparisons());
}

/// Calls on an empty shelf.
fn of_an_empty_shelf(shelf: &mut Shelf<u64, u64>) -> Spread {
    let mut empty = Spread::none();
    look(shelf, 7, &mut empty);
    take(shelf, 7, &mut empty);
    add(shelf, 7, &mut empty);
    empty
}

/// Calls on a shelf with one entry, which is then empty.
fn of_one_entry(shelf: &mut Shelf<u64, u64>) -> Spread {
    let mut one = Spread::none();
    look(shelf, 7, &mut one);
    take(shelf, 7, &mut one);
    one
}

/// Fills an empty shelf with 1,023 entries, whose keys are even.
fn fill(shelf: &mut Shelf<u64, u64>) {
    let mut filling = Spread::none();
    for i in 0..1_023u64 {
        add(shelf, i * 389 % 1_023 * 2, &mut filling);
    }
}

/// Calls that leave the shelf as it was, of which one adds an entry and one removes it.
fn use_key(shelf: &mut Shelf<u64, u64>, key: u64, spread: &mut Spread) {
    look(shelf, key, spread);
    let odd = key % 2 == 1;
    if odd {
        add(shelf, key, spread);
    }
    take(shelf, key, spread);
    if !odd {
        add(shelf, key, spread);
    }
}

/// Calls on the full shelf, with keys that it has and with others.
fn of_a_full_shelf(shelf: &mut Shelf<u64, u64>) -> Spread {
    let mut full = Spread::none();
    for key in 0..2_048u64 {
        use_key(shelf, key, &mut full);
    }
    full
}

fn compares_few(shelf: &mut Shelf<u64, u64>) -> bool {
    if of_an_empty_shelf(shelf).most > 2 {
        return false;
    }
    let one = of_one_entry(shelf);
    fill(shelf);
    let is_full = shelf.len() == 1_023 && shelf.spare() == 1;
    let full = of_a_full_shelf(shelf);
    one.fewest == 1 && one.most == 1 && is_full && full.fewest >= 1 && full.most <= 22
}

#[test]
fn comparisons_of_a_call(rt: HostRuntime) {
    digits_by_hand();
    let mut shelf = Shelf::new();
    let are_few = shelf.reserve(rt.alloc(), 1_024).is_ok() && compares_few(&mut shelf);
    drop(shelf);
    assert!(rt; are_few);
}
