//! An ordered map whose insertions cannot fail.
//!
//! A [`Shelf`] keeps its entries in the order of their keys, each in a box of a balanced search
//! tree, and keeps spare boxes for entries to come. Only [`Shelf::reserve`] allocates, so a caller
//! that has reserved first can insert, remove and move entries, and none of these calls can fail.
//! Each call compares few keys: its contract states a bound for the count [`Shelf::comparisons`].
//!
//! [`Shelves`] are the same map with a tree for each part of the keys, for keys that have parts.
//!
//! A [`Catalog`] is the same map without the count. A shared reference is enough to search it and
//! to visit its entries.
#![tactic(auto)]

pub use boxes::BoxSource;
pub use catalog::Catalog;
pub use edit::{Edit, TryEdit};
pub use fault::NoMemory;
pub use shelf::Shelf;
pub use shelves::{Parted, Shelves};
pub use walk::{Test, Visitor};

mod alone;
mod boxes;
mod catalog;
mod edit;
mod fault;
mod find;
mod insert;
mod remove;
mod rotation;
mod shelf;
mod shelves;
mod tree;
mod walk;
