//! The outcome of a call, and how it is printed.

use std::io::Print;

/// The outcome of a call or of a run.
#[derive(Clone, Copy)]
pub enum Outcome {
    /// It succeeded.
    Made,
    /// An allocation failed, and nothing was changed.
    Refused,
    /// An allocation failed after this many others of the call, whose memory is kept.
    Kept(usize),
    /// A thread could not be started, and nothing was changed.
    ThreadRefused,
    /// A command was skipped because an allocation failed, and what came after followed from that.
    LeftOut,
    /// An allocation failed for an argument of the call.
    NotBegun,
    /// It did something else than the rules allow.
    Wrong,
}

impl Outcome {
    fn line(self) -> &'static str {
        match self {
            Outcome::Made => ": made\n",
            Outcome::Refused => ": refused\n",
            Outcome::Kept(0) => ": refused, 0 are kept\n",
            Outcome::Kept(1) => ": refused, 1 is kept\n",
            Outcome::Kept(2) => ": refused, 2 are kept\n",
            Outcome::Kept(_) => ": refused, too many are kept\n",
            Outcome::ThreadRefused => ": a thread was refused\n",
            Outcome::LeftOut => ": a command was left out\n",
            Outcome::NotBegun => ": not begun\n",
            Outcome::Wrong => ": wrong\n",
        }
    }
}

/// Prints the outcome on one line. Returns false if it could not be printed.
pub fn tells(rt: &HostRuntime, name: &str, outcome: Outcome) -> bool {
    rt.write_all(name.as_bytes()).is_ok() && rt.write_all(outcome.line().as_bytes()).is_ok()
}
