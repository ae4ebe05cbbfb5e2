use super::{Moment, Seat, Step};

/// An entry of a journal: a step that the core took.
#[derive(Drop)]
pub struct Entry {
    /// The moment that the caller passed in, in milliseconds.
    pub moment: Moment,
    /// The seat whose step it was.
    pub seat: Seat,
    pub step: Step,
    /// True if the step's command was skipped because an allocation failed.
    pub left_out: bool,
}
