//! The name of a tube, for contracts only.
ghost use Rattle.std.specs.Prelude.{◌≡◌};

use bq_job::TubeName;
use std::marker::Model;
use std::snapshot::Snapshot;

/// The name of a tube, which only contracts see: the program has the number of the tube, and this
/// takes no memory. A report has it in place of the name, which takes 201 bytes.
#[derive(Drop)]
pub struct GhostName(Snapshot<TubeName>);

impl Model for GhostName {
    ghost use Rattle.std.specs.Prelude.{List, ℕ};

    ghost Value = { List ℕ };

    ghost view = { λ n. n.0.value };
}

impl GhostName {
    /// Returns this name.
    pub fn of(name: &TubeName) -> GhostName
        ensures { result ≡ name.now }
    {
        GhostName(Snapshot::of(name))
    }
}
