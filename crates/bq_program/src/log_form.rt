//! How lines on standard error begin.
ghost use Rattle.std.specs.Prelude.{◌≡◌};
ghost use Rattle.bq_program.specs.LogForms.{prefix_of, priority_of};

/// How serious a line is.
#[derive(Clone, Copy, PartialEq, Eq)]
pub enum Severity {
    /// The program does not start, or ends by a fault.
    Error,
    /// Clients notice it: memory, descriptors, seats or jobs are at their limit.
    Warning,
    /// Everything else.
    Info,
}

/// How lines on standard error begin.
#[derive(Clone, Copy, PartialEq, Eq)]
pub enum LogForm {
    /// With the program's name.
    Plain,
    /// With a priority for systemd's journal, as in sd-daemon(3), and then the program's name.
    Journal,
}

impl LogForm {
    /// Returns what a line has before the program's name.
    pub fn prefix(self, severity: Severity) -> &'static str
        ensures { result.now ≡ prefix_of self severity }
    {
        match self {
            LogForm::Plain => "",
            LogForm::Journal => priority_of(severity),
        }
    }
}

fn priority_of(severity: Severity) -> &'static str
    ensures { result.now ≡ priority_of severity }
{
    match severity {
        Severity::Error => "<3>",
        Severity::Warning => "<4>",
        Severity::Info => "<6>",
    }
}
