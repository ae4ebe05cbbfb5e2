ghost use Rattle.std.specs.Prelude.{◌≡◌, ◌≤◌, ◌+◌, ◌++◌, [], IfOk, OnOk, length};

use super::NoMemory;
use super::bytes::Bytes;
use std::alloc::Global;
use std::marker::Model;

/// The bytes of a job. Several answers can share them.
#[derive(Drop)]
pub struct Body {
    bytes: Bytes,
}

impl Model for Body {
    ghost use Rattle.std.specs.Prelude.{List, ℕ};
    ghost use Rattle.bq_job.specs.beside.KeptBytes.{bytes_in};

    ghost Value = { List ℕ };

    ghost view = { λ b. bytes_in b.bytes };
}

impl Body {
    /// Copies `bytes` into a new body. Returns `NoMemory` if an allocation fails.
    pub fn new(alloc: Global, bytes: &[u8]) -> Result<Body, NoMemory>
        ensures { IfOk result (λ body. body ≡ bytes.now) }
    {
        let mut builder = BodyBuilder::new(alloc, bytes.len())?;
        builder.push_slice(bytes)?;
        Ok(builder.finish())
    }

    /// Returns another reference to the same bytes. It allocates nothing, and fails only if `Arc`
    /// refuses another reference.
    pub fn share(&self) -> Result<Body, NoMemory>
        ensures { IfOk result (λ body. body ≡ self.now) }
    {
        let bytes = self.bytes.share()?;
        Ok(Body { bytes })
    }

    /// Returns the bytes.
    pub fn as_slice(&self) -> &[u8]
        ensures { result.now ≡ self.now }
    {
        self.bytes.as_slice()
    }
}

/// A body and a number that its owner keeps with it. It takes no more memory than the body.
#[derive(Drop)]
pub struct NumberedBody {
    bytes: Bytes,
}

impl Model for NumberedBody {
    ghost use Rattle.bq_job.specs.beside.KeptBytes.{bytes_in, note_in};
    ghost use Rattle.bq_job.specs.beside.NumberedBytes.{NumberedBytes};

    ghost Value = { NumberedBytes };

    ghost view = { λ b. record { bytes = bytes_in b.bytes; number = note_in b.bytes } };
}

impl NumberedBody {
    /// Joins a body and a number.
    pub fn new(body: Body, number: u32) -> NumberedBody
        ensures bytes { result.bytes ≡ body }
        ensures number { result.number ≡ number }
    {
        let bytes = body.bytes.with_note(number);
        NumberedBody { bytes }
    }

    /// Returns the number.
    pub fn number(&self) -> u32
        ensures { result ≡ self.now.number }
    {
        self.bytes.note()
    }

    /// Returns another reference to the body. It allocates nothing, and fails only if `Arc` refuses
    /// another reference.
    pub fn share(&self) -> Result<Body, NoMemory>
        ensures { IfOk result (λ body. body ≡ self.now.bytes) }
    {
        let bytes = self.bytes.share()?;
        Ok(Body { bytes })
    }
}

/// A body that is being filled. `new` allocates everything that it needs.
#[derive(Drop)]
pub struct BodyBuilder {
    bytes: Bytes,
}

impl Model for BodyBuilder {
    ghost use Rattle.bq_job.specs.beside.BodySoFar.{BodySoFar};
    ghost use Rattle.bq_job.specs.beside.KeptBytes.{bytes_in, room_in};

    ghost Value = { BodySoFar };

    ghost view = { λ b. record { bytes = bytes_in b.bytes; room = room_in b.bytes } };
}

impl BodyBuilder {
    /// Returns an empty body with room for `size` bytes. Returns `NoMemory` if an allocation of
    /// that size fails.
    pub fn new(alloc: Global, size: usize) -> Result<BodyBuilder, NoMemory>
        ensures empty { IfOk result (λ b. b.bytes ≡ []) }
        ensures room { IfOk result (λ b. size ≤ b.room) }
    {
        let bytes = Bytes::with_room(alloc, size)?;
        Ok(BodyBuilder { bytes })
    }

    /// Appends these bytes. It allocates nothing; the caller ensures that they fit. It fails only
    /// if `Arc` does not give access to its only owner, and then the builder is of no more use.
    pub fn push_slice(&mut self, bytes: &[u8]) -> Result<(), NoMemory>
        requires { length bytes.now ≤ self.old.room }
        ensures bytes { OnOk result (self.new.bytes ≡ self.old.bytes ++ bytes.now) }
        ensures room { OnOk result (self.old.room ≤ self.new.room + length bytes.now) }
    {
        self.bytes.append(bytes)
    }

    /// Returns the body of the bytes so far. It allocates nothing.
    pub fn finish(self) -> Body
        ensures { result ≡ self.bytes }
    {
        Body { bytes: self.bytes }
    }
}
