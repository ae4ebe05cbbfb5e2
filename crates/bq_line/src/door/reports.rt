//! The records through which a door reports.

use super::free_doors::FreeDoors;
use super::open_doors::OpenDoors;
use super::refusals::Refusals;

/// The records through which a door reports. The doors of a listener share them. A door does not
/// make the reports of a record that is `None`.
#[derive(Clone, Copy)]
pub struct Reports<'l> {
    /// Reports that connections can't be accepted.
    pub refusals: Option<&'l Refusals>,
    /// Reports that all doors are taken. It also decides whether the doors close the connections
    /// that come meanwhile. If it is `None`, those connections wait.
    pub free: Option<&'l FreeDoors>,
    /// Counts the doors that still take connections.
    pub open: Option<&'l OpenDoors>,
}
