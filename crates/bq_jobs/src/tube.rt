//! A tube, by its name and its number.
ghost use Rattle.std.specs.Prelude.{◌≡◌};

use crate::tube_number::TubeNumber;
use bq_job::TubeName;
use std::marker::Model;

/// A tube as a client or a report knows it: by its name, and by the number that it had when it was
/// last looked up. A contract sees the name alone. The number says where to look first: whoever
/// looks there compares the name, so a number that is out of date does no harm.
#[derive(Drop)]
pub struct Tube {
    name: TubeName,
    number: TubeNumber,
}

impl Model for Tube {
    ghost use Rattle.std.specs.Prelude.{List, ℕ};

    ghost Value = { List ℕ };

    ghost view = { λ t. t.name };
}

impl Tube {
    /// Returns a tube with this name, to be looked for at this number first.
    pub fn new(name: &TubeName, number: TubeNumber) -> Tube
        ensures { result ≡ name.now }
    {
        Tube {
            name: *name,
            number,
        }
    }

    /// Returns its name.
    pub fn name(&self) -> &TubeName
        ensures { result.now ≡ self.now }
    {
        &self.name
    }

    /// Returns the number at which to look first.
    pub fn number(&self) -> TubeNumber {
        self.number
    }

    /// Returns the same tube.
    pub fn copy(&self) -> Tube
        ensures { result ≡ self.now }
    {
        Tube::new(&self.name, self.number)
    }
}
