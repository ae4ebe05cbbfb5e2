//! When the core's thread yields.
ghost use Rattle.std.specs.Prelude.{◌≡◌, ◌*◌, ◌-◌, ◌<◌, ◌↔◌, if◌then◌else◌, min, true};

/// The longest yield that is not slow, in milliseconds. If other programs keep the processor busy, a
/// yield lasts until the system stops one of these: 3 or 4 milliseconds on most systems. On one
/// processor with 64 busy clients it lasts 1, because all seats have their turn.
const QUICK: u64 = 2;

/// How many waits pass without a yield after a slow one that followed a quick one.
const FEW_WAITS: u32 = 64;

/// The largest number of waits that pass without a yield.
const MOST_WAITS: u32 = 16_384;

/// When a thread that waits yields before it sleeps.
///
/// If the thread that it waits for shares its processor, a yield costs less than to sleep and be
/// woken. If other programs keep the processor busy, a yield costs milliseconds. So the caller times
/// each yield. After a slow one some waits begin without a yield, twice as many after the next, until
/// a yield is quick again.
#[derive(Clone, Copy)]
pub struct Yielding {
    /// How many waits pass before the next yield.
    pub left: u32,
    /// How many waits pass after the next slow yield.
    pub pause: u32,
}

impl Yielding {
    /// Returns the state of a thread that has not waited yet.
    pub fn new() -> Yielding
        ensures at_once { result.left ≡ 0 }
        ensures few { result.pause ≡ 64 }
    {
        Yielding {
            left: 0,
            pause: FEW_WAITS,
        }
    }

    /// Counts a wait, and returns true if it begins with a yield.
    pub fn is_next(&mut self) -> bool
        ensures next { result ≡ true ↔ (self.old.left ≡ 0) }
        ensures less { self.new ≡ record self.old { left = self.old.left - 1 } }
    {
        let is_next = self.left == 0;
        self.left = self.left.saturating_sub(1);
        is_next
    }

    /// Notes how many milliseconds a yield took, and returns true if that was slow.
    pub fn is_slow(&mut self, took: u64) -> bool
        ensures slow { result ≡ true ↔ (2 < took) }
        ensures left { self.new.left ≡ (if result then self.old.pause else 0) }
        ensures pause { self.new.pause ≡ (if result then min (2 * self.old.pause) 16384 else 64) }
    {
        let is_slow = took > QUICK;
        *self = if is_slow {
            Yielding {
                left: self.pause,
                pause: self.pause.saturating_mul(2).min(MOST_WAITS),
            }
        } else {
            Yielding::new()
        };
        is_slow
    }
}
