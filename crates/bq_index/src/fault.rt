ghost use Rattle.std.specs.Prelude.{◌≡◌};

/// The allocation of a box failed.
#[derive(Clone, Copy, Debug, PartialEq, Eq)]
pub struct NoMemory;

impl NoMemory {
    /// Returns the number of this error, 301.
    pub fn code(self) -> u16
        ensures { result ≡ 301 }
    {
        301
    }
}
