//! An input and an output as one stream.
ghost use Rattle.std.specs.Prelude.{◌≡◌, true};

use bq_line::line::{Duplex, StreamError, in_brief};
use std::io::{Read, Write};

/// An input and an output as one stream, for example the standard input and output of a program. Nothing is buffered:
/// each call is one call of the input or of the output, with the same result. The stream has the bytes that the input
/// has left and the output holds.
#[derive(Drop)]
pub struct Console<I, O> {
    input: I,
    output: O,
}

impl<I, O> Console<I, O> {
    /// Makes a stream of an input and an output.
    pub fn new(input: I, output: O) -> Console<I, O>
        ensures { result ≡ record { input = input; output = output } }
    {
        Console { input, output }
    }

    /// Returns the output.
    pub fn into_output(self) -> O
    where
        I: Drop,
        ensures { result ≡ self.output }
    {
        self.output
    }
}

impl<I: Read, O: Write> Duplex for Console<I, O> {
    ghost remaining = { λ console. I.remaining console.input };

    ghost contents = { λ console. O.contents console.output };

    // Nothing is known of the errors of an input or an output.
    ghost may_fail = { λ _. true };

    // The input of a program has no read that does not block.
    fn read(&mut self, buf: &mut [u8]) -> Result<usize, StreamError> {
        in_brief(self.input.read(buf))
    }

    fn write(&mut self, buf: &[u8]) -> Result<usize, StreamError> {
        in_brief(self.output.write(buf))
    }

    fn flush(&mut self) -> Result<(), StreamError> {
        in_brief(self.output.flush())
    }
}
