//! How many bytes a call reads or writes.
ghost use Rattle.std.specs.Prelude.{◌≤◌, IfSome};

/// The number of bytes before the first pause, and between two further ones.
pub type Pace = (usize, usize);

/// No pauses.
pub const FREE: Pace = (usize::MAX, usize::MAX);

/// Bytes in one direction, with pauses. A call at a pause moves no bytes, and ends the pause.
#[derive(Clone, Copy)]
pub struct Flow {
    left: usize,
    later: usize,
}

impl Flow {
    /// Returns a flow that first pauses after the first number of bytes, and then each time after
    /// the second.
    pub fn new(pace: Pace) -> Flow {
        Flow {
            left: pace.0,
            later: pace.1,
        }
    }

    /// Returns how many of this many bytes a call moves, or `None` at a pause.
    pub fn take(&mut self, most: usize) -> Option<usize>
        ensures { IfSome result (λ count. count ≤ most) }
    {
        if self.left == 0 {
            self.left = self.later;
            return None;
        }
        let count = most.min(self.left);
        self.left -= count;
        Some(count)
    }
}
