//! Worked examples of the definitions in `bq_job` that no code computes: runs and histories. Each is a
//! clause that the checker proves by evaluating the definitions; none runs our code. What a reader,
//! a core and a session answer is in tables of other tests, and proved to be as defined.
mod histories;
mod runs;
