//! Connections beyond the doors.

/// What a door did with connections for which no door of its listener is free.
#[derive(Clone, Copy, PartialEq, Eq)]
pub enum TurnedAway {
    /// It leaves them to the system until a door is free, or a door is free.
    Waits,
    /// It accepted one and closed it at once. More may wait.
    Closed,
    /// None waits. The system reports the next one.
    NoneThere,
    /// No connection can be accepted for a while, because the system lacks a resource.
    Later,
}
