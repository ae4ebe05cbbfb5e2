//! Tests of the links between seats and core.

mod bells;
mod by_hand;
mod ends;
mod in_order;
