//! The programs and their names.
ghost use Rattle.std.specs.Prelude.{◌≡◌};
ghost use Rattle.bq_program.specs.Programs.{name_of};

/// The programs that take options.
#[derive(Clone, Copy, PartialEq, Eq)]
pub enum Program {
    /// Serves one client over its standard input and output.
    Bq,
    /// Serves many clients, each over a connection.
    Bqd,
}

impl Program {
    /// Returns the name of the program.
    pub fn name(self) -> &'static str
        ensures { result.now ≡ name_of self }
    {
        match self {
            Program::Bq => "bq",
            Program::Bqd => "bqd",
        }
    }
}
