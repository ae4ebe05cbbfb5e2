ghost use Rattle.std.specs.Prelude.{IfOk, [], decimal, length, ◌++◌, ◌+◌, ◌≡◌, ◌≤◌};

use bq_job::{NoMemory, Text};
use itoa::Buffer;
use std::alloc::Global;
use std::marker::Model;

/// A text that is being written. `new` allocates everything that it needs.
#[derive(Drop)]
pub(crate) struct TextBuilder {
    bytes: Vec<u8, Global>,
}

impl Model for TextBuilder {
    ghost use Rattle.std.specs.{Prelude.{vec_len, ◌-◌}, Vec.vec_capacity};
    ghost use Rattle.bq_core.specs.Texts.{TextSoFar};

    ghost Value = { TextSoFar };

    ghost view = { λ b. record { bytes = b.bytes.items; room = vec_capacity b.bytes - vec_len b.bytes } };
}

impl TextBuilder {
    /// Returns an empty text with room for `size` bytes. Returns `NoMemory` if that allocation
    /// fails.
    pub(crate) fn new(alloc: Global, size: usize) -> Result<TextBuilder, NoMemory>
        ensures empty { IfOk result (λ b. b.bytes ≡ []) }
        ensures room { IfOk result (λ b. b.room ≡ size) }
    {
        match Vec::with_capacity(alloc, size) {
            Ok(bytes) => Ok(TextBuilder { bytes }),
            Err(_) => Err(NoMemory),
        }
    }

    /// Appends these bytes. It allocates nothing.
    pub(crate) fn push(&mut self, bytes: &[u8])
        requires { length bytes.now ≤ self.old.room }
        ensures bytes { self.new.bytes ≡ self.old.bytes ++ bytes.now }
        ensures room { self.old.room ≤ self.new.room + length bytes.now }
    {
        let _fits = self.bytes.extend_from_slice(bytes);
    }

    /// Appends a number. It allocates nothing.
    pub(crate) fn push_number(&mut self, n: u64)
        requires { length (decimal n) ≤ self.old.room }
        ensures bytes { self.new.bytes ≡ self.old.bytes ++ decimal n }
        ensures room { self.old.room ≤ self.new.room + length (decimal n) }
    {
        let mut digits = Buffer::new();
        self.push(digits.format(n).as_bytes());
    }

    /// Returns the text of the bytes so far. It allocates nothing.
    pub(crate) fn finish(self) -> Text
        ensures { result ≡ self.bytes }
    {
        Text::from_vec(self.bytes)
    }
}

/// Returns the number of decimal digits of a number.
pub(crate) fn digit_count(n: u64) -> usize
    ensures { result ≡ length (decimal n) }
{
    let mut digits = Buffer::new();
    digits.format(n).len()
}
