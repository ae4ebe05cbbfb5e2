ghost use Rattle.std.specs.Prelude.{◌≡◌, ◌<◌, ◌≤◌, length, slice_get};
ghost use Rattle.bq_line.specs.ScriptPlace.{IsRead, last_reading};

use super::Clock;
use bq_job::Moment;
use std::alloc::Global;
use std::marker::Model;

/// A clock that gives the readings of a list in order, and then repeats the last one. With an empty
/// list, every reading fails. In contracts, its value is the list and the place in it.
#[derive(Drop)]
pub struct ScriptClock {
    script: Vec<Option<Moment>, Global>,
    place: usize,
}

impl Model for ScriptClock {
    ghost use Rattle.std.specs.Prelude.{◌≤◌, length};
    ghost use Rattle.bq_line.specs.ScriptPlace.{ScriptPlace};

    ghost Value = { ScriptPlace };

    ghost view = { λ c. record { script = c.script.items; place = c.place } };

    ghost invariant = { λ c. c.place ≤ length c.script.items };
}

impl ScriptClock {
    /// Returns a clock before its first reading.
    pub fn new(script: Vec<Option<Moment>, Global>) -> ScriptClock
        ensures { result ≡ record { script = script.items; place = 0 } }
    {
        ScriptClock { script, place: 0 }
    }
}

impl Clock for ScriptClock {
    ghost use Rattle.std.proofs.Common.{refl, inl, arith};

    ghost given = { λ before readings after. IsRead before readings after };

    ghost none_given = { λ clock. record {
      count = 0;
      again = 0;
      script_is = refl;
      within = omega arith;
      place_is = omega arith;
      readings_are = refl;
      at_end = inl refl;
    } };

    #[tactic(auto, using(crate::proofs::ReadingsLemmas::read_next, crate::proofs::ReadingsLemmas::read_again))]
    fn now(&mut self) -> Option<Moment> {
        let reading = reading_at(&self.script, self.place);
        if self.place < self.script.len() {
            self.place += 1;
        }
        reading
    }
}

// Returns the reading at a place of the script, or the last one if the place is past its end.
fn reading_at(script: &[Option<Moment>], place: usize) -> Option<Moment>
    ensures within { place < length script.now → slice_get script.now place ≡ Some result }
    ensures behind { length script.now ≤ place → result ≡ last_reading script.now }
{
    if place < script.len() {
        script[place]
    } else if script.is_empty() {
        None
    } else {
        script[script.len() - 1]
    }
}
