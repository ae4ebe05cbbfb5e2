//! The time that the steps of a round take, as the core's clock shows it. The core reads its clock
//! when it takes a step, and it is not read for this, so the time of a step becomes known with the
//! next one.
ghost use Rattle.std.specs.Prelude.{◌≡◌, ◌<◌, ◌≤◌, ◌-◌, ℕ, false, None, Some, ◌||◌, not, nat_lt};
ghost use Rattle.bq_event_loop.specs.Visits.{holds_up};

use super::visits::Part;

/// From how many microseconds on a step is so long that it holds up the seats after it.
const LONG: u64 = 50;

/// After how many microseconds of a round each further visit is for a single command.
const ROUND: u64 = 2000;

/// What the clock tells of a round.
#[derive(Clone, Copy)]
pub struct Pace {
    // The clock's last reading and the reading of the round's first step, in microseconds.
    reading: u64,
    began: u64,
    // The seat that took a step at the last reading, if one did in this round.
    stepped: Option<usize>,
    // Whether a seat's step was long, so that it held up the seat after it.
    is_held_up: bool,
}

impl Pace {
    /// Begins a round after this reading of the clock.
    pub fn begin(reading: u64) -> Pace
        ensures { result ≡ record { reading = reading; began = reading; stepped = None; is_held_up = false } }
    {
        Pace {
            reading,
            began: reading,
            stepped: None,
            is_held_up: false,
        }
    }

    /// Notes the clock's last reading after a turn of this seat in this part of the round. If the
    /// seat took a step, and the step before it was its own too, it returns how long that one took,
    /// and otherwise 0.
    pub fn note(&mut self, part: Part, seat: usize, reading: u64) -> u64
        ensures none { reading ≤ self.old.reading → (result ≡ 0) × (self.new ≡ self.old) }
        ensures first { self.old.reading < reading → self.old.stepped ≡ None
            → (result ≡ 0) × (self.new ≡ record self.old { reading = reading; began = reading; stepped = Some seat }) }
        ensures own { self.old.reading < reading → self.old.stepped ≡ Some seat
            → (result ≡ reading - self.old.reading) × (self.new ≡ record self.old { reading = reading }) }
        ensures other { self.old.reading < reading → (last : ℕ) → self.old.stepped ≡ Some last → (last ≡ seat → ⊥)
            → (result ≡ 0) × (self.new ≡ record self.old {
              reading = reading;
              stepped = Some seat;
              is_held_up = self.old.is_held_up || holds_up part (reading - self.old.reading);
            }) }
    {
        if reading <= self.reading {
            return 0;
        }
        let took = reading - self.reading;
        self.reading = reading;
        match self.stepped {
            None => {
                self.began = reading;
                self.stepped = Some(seat);
                0
            }
            Some(last) => {
                if last == seat {
                    return took;
                }
                self.stepped = Some(seat);
                // Between two turns of the part of the steps there is no call of the system, so that
                // a long time is that of a step.
                self.is_held_up = self.is_held_up || matches!(part, Part::Steps) && took >= LONG;
                0
            }
        }
    }

    /// Returns true if the step of a seat was so long that it held up the seat after it.
    pub fn is_held_up(&self) -> bool
        ensures { result ≡ self.now.is_held_up }
    {
        self.is_held_up
    }

    /// Returns true if the steps of the round have taken so long that each further visit is for a
    /// single command.
    pub fn is_late(&self) -> bool
        ensures { result ≡ not (nat_lt (self.now.reading - self.now.began) 2000) }
    {
        self.reading.saturating_sub(self.began) >= ROUND
    }
}
