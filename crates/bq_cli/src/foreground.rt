//! The standard input of a program that may run in the background of a terminal.
ghost use Rattle.std.specs.Prelude.{◌≡◌, false};

use std::io;
use std::io::Read;

/// The standard input, which is at its end while it is a terminal that another job reads: the shell
/// that started the program with `&`, say. The system stops a program that reads it nevertheless.
#[derive(Drop)]
pub struct ForegroundInput<I> {
    input: I,
    // True if a read found the program in the background. There is no way back, since the end of
    // input was reported.
    is_over: bool,
}

impl<I> ForegroundInput<I> {
    /// Returns the standard input, which is read through `input`.
    pub fn new(input: I) -> ForegroundInput<I>
        ensures { result ≡ record { input = input; is_over = false } }
    {
        ForegroundInput {
            input,
            is_over: false,
        }
    }
}

/// What a terminal will give is not known, so no clause says what is read.
impl<I: Read> Read for ForegroundInput<I> {
    fn read(&mut self, buf: &mut [u8]) -> io::Result<usize> {
        if self.is_over || is_in_background() {
            self.is_over = true;
            return Ok(0);
        }
        self.input.read(buf)
    }
}

// Returns true if the standard input is the program's terminal and another job has it. A terminal
// that is not the program's own has no job here, and whoever reads it is not stopped.
fn is_in_background() -> bool {
    let job = libc::tcgetpgrp(libc::STDIN_FILENO);
    job >= 0 && job != libc::getpgrp()
}
