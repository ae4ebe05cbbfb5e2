ghost use Rattle.std.specs.Prelude.{◌≡◌, ◌≤◌, ◌<◌, ◌+◌, ℕ, List, [], None, IfSome, length, take, nat_le, true, ◌-◌};
ghost use Rattle.std.specs.Option.{ForSome};
ghost use Rattle.bq_job.specs.reading.Reading.{IsPutRequest, put_with_body};
ghost use Rattle.bq_wire.specs.Asked.{put_line_of};
ghost use Rattle.bq_wire.specs.PutBodies.{IsBodySoFar, HasBodyRoom, TakesBytes, Stores};

use crate::line_read::PutLine;
use bq_job::{BodyBuilder, Refusal, Request};
use std::alloc::Global;

/// The body of a put and the two bytes after it, as far as they have arrived.
#[derive(Drop)]
pub struct PutBody {
    /// The numbers on the put's command line.
    pub put: PutLine,
    /// How many bytes of the body and of the two after it were taken.
    pub taken: usize,
    /// The body's bytes; `None` if the body is too big or could not be kept.
    pub store: Option<BodyBuilder>,
    /// True as long as the bytes taken after the body are a beginning of CR LF.
    pub good_end: bool,
}

impl PutBody {
    /// Returns a body of which nothing has arrived. It tries to allocate the whole body here and
    /// nowhere else; if that fails, it consumes the bytes without keeping them.
    pub fn new(alloc: Global, put: PutLine) -> PutBody
        ensures put { result.put ≡ put }
        ensures nothing { IsBodySoFar result [] }
        ensures room { HasBodyRoom result }
        ensures taken { result.taken ≡ 0 }
    {
        PutBody {
            put,
            taken: 0,
            store: BodyBuilder::new(alloc, put.bytes as usize).ok(),
            good_end: true,
        }
    }

    /// Returns a body that is too big, of which nothing has arrived. Its bytes are consumed without
    /// being kept.
    pub fn too_big(put: PutLine) -> PutBody
        ensures put { result.put ≡ put }
        ensures nothing { IsBodySoFar result [] }
        ensures room { HasBodyRoom result }
        ensures taken { result.taken ≡ 0 }
        ensures unstored { result.store ≡ None }
    {
        PutBody {
            put,
            taken: 0,
            store: None,
            good_end: true,
        }
    }

    // Takes the bytes that belong to the body, and returns how many.
    fn take_body(&mut self, bytes: &[u8]) -> usize
        requires { HasBodyRoom self.old }
        ensures room { HasBodyRoom self.new }
        ensures put { self.new.put ≡ self.old.put }
        ensures within { result ≤ length bytes.now }
        ensures taken { self.new.taken ≡ self.old.taken + result }
        ensures takes { TakesBytes self.old self.new (take result bytes.now) }
        ensures all { result < length bytes.now → self.new.put.bytes ≤ self.new.taken }
    {
        let left = (self.put.bytes as usize).saturating_sub(self.taken);
        let count = left.min(bytes.len());
        store_bytes(&mut self.store, &bytes[..count]);
        self.taken += count;
        count
    }

    // Takes the first byte if it is one of the two after the body, and returns how many bytes it
    // took.
    fn take_end_byte(&mut self, bytes: &[u8]) -> usize
        requires { HasBodyRoom self.old }
        ensures room { HasBodyRoom self.new }
        ensures put { self.new.put ≡ self.old.put }
        ensures within { result ≤ length bytes.now }
        ensures taken { self.new.taken ≡ self.old.taken + result }
        ensures takes { TakesBytes self.old self.new (take result bytes.now) }
        ensures one { 0 < length bytes.now → self.old.put.bytes ≤ self.old.taken
            → self.old.taken < self.old.put.bytes + 2 → result ≡ 1 }
    {
        let size = self.put.bytes as usize;
        let Some(byte) = bytes.first() else {
            return 0;
        };
        if self.taken < size || self.taken > size + 1 {
            return 0;
        }
        let expected = if self.taken == size { b'\r' } else { b'\n' };
        self.good_end = self.good_end && *byte == expected;
        self.taken += 1;
        1
    }

    /// Takes the bytes that belong to the put, and returns how many.
    #[tactic(auto, using(crate::proofs::ReaderLemmas::take_two, std::proofs::Common::append_assoc))]
    pub fn take(&mut self, bytes: &[u8]) -> usize
        requires { HasBodyRoom self.old }
        ensures room { HasBodyRoom self.new }
        ensures put { self.new.put ≡ self.old.put }
        ensures within { result ≤ length bytes.now }
        ensures taken { self.new.taken ≡ self.old.taken + result }
        ensures takes { TakesBytes self.old self.new (take result bytes.now) }
        ensures all { self.new.taken < self.new.put.bytes + 2 → result ≡ length bytes.now }
    {
        let body = self.take_body(bytes);
        let cr = self.take_end_byte(&bytes[body..]);
        let lf = self.take_end_byte(&bytes[body + cr..]);
        body + cr + lf
    }

    /// Returns how many bytes of the body and of the two after it have not arrived.
    pub fn missing(&self) -> usize
        ensures { result ≡ self.now.put.bytes + 2 - self.now.taken }
    {
        (self.put.bytes as usize + 2).saturating_sub(self.taken)
    }

    /// Returns true if the body and the two bytes after it have arrived.
    pub fn is_whole(&self) -> bool
        ensures { result ≡ nat_le (self.now.put.bytes + 2) self.now.taken }
    {
        self.put.bytes as usize + 2 <= self.taken
    }

    /// Returns the request of a put that has arrived completely. It allocates nothing.
    #[inline(always)]
    pub fn into_request(self, max_job_size: u32) -> Request
        requires { self.taken ≡ self.put.bytes + 2 }
        // If the allocation for the body failed, the answer is OUT_OF_MEMORY, whatever the bytes
        // are.
        ensures refused { self.store ≡ None → self.put.bytes ≤ max_job_size
            → result ≡ Request.Refused Refusal.OutOfMemory }
        ensures request { (after : List ℕ) → IsBodySoFar self after
            → IsPutRequest max_job_size (put_line_of self.put) after result }
        // If the body was kept, its bytes alone decide.
        ensures kept { IfSome self.store (λ _. (after : List ℕ) → IsBodySoFar self after
            → self.put.bytes ≤ max_job_size → result ≡ put_with_body (put_line_of self.put) after) }
    {
        if self.put.bytes > max_job_size {
            return refused(Refusal::JobTooBig);
        }
        let store = self.store;
        let Some(store) = store else {
            return refused(Refusal::OutOfMemory);
        };
        if !self.good_end {
            return refused(Refusal::ExpectedCrlf);
        }
        Request::Put {
            pri: self.put.pri,
            delay: self.put.delay,
            ttr: self.put.ttr,
            body: store.finish(),
        }
    }
}

// Appends bytes to a store, if there is one. If that fails, the store is given up, as if it had not
// been allocated.
fn store_bytes(store: &mut Option<BodyBuilder>, bytes: &[u8])
    requires { ForSome store.old (λ s. length bytes.now ≤ s.room) }
    ensures { Stores store.old store.new bytes.now }
{
    if !has_stored(store, bytes) {
        *store = None;
    }
}

// Does the same, but returns false if it failed.
fn has_stored(store: &mut Option<BodyBuilder>, bytes: &[u8]) -> bool
    requires { ForSome store.old (λ s. length bytes.now ≤ s.room) }
    ensures none { store.old ≡ None → store.new ≡ None }
    ensures stored { result ≡ true → Stores store.old store.new bytes.now }
{
    match store {
        None => true,
        Some(kept) => match kept.push_slice(bytes) {
            Ok(()) => true,
            Err(_) => false,
        },
    }
}

#[inline(always)]
fn refused(why: Refusal) -> Request
    ensures { result ≡ Request.Refused why }
{
    Request::Refused(why)
}
