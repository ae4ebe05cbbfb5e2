//! Calls that may fail for lack of memory, and steps that must not allocate: the result of each is
//! a line on standard output. tests/memory_faults runs it again and again, with another allocation
//! failing each time.

mod lines;
mod makings;
mod outcome;
mod runs;
mod steps;
mod told;
