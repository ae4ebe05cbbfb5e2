ghost use Rattle.std.specs.Prelude.{◌≡◌};

/// An allocation failed.
#[derive(Clone, Copy, Debug, PartialEq, Eq)]
pub struct NoMemory;

impl NoMemory {
    /// Returns the number of this fault, 301.
    pub fn code(self) -> u16
        ensures { result ≡ 301 }
    {
        301
    }
}
