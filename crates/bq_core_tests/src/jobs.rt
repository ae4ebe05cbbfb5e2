//! Tests of shelves, and of the jobs of a queue, which are kept in shelves. That each call does what
//! it says is proved; here are the calls that allocate, worked examples, and what no contract says.

mod boxes;
mod named;
mod shelves;
