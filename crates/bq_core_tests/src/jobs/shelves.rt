//! The tests of shelves.

mod boxes;
mod by_hand;
mod comparisons;
