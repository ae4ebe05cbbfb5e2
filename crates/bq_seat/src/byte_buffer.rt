//! A buffer of bytes that came and were not used yet.
ghost use Rattle.std.specs.Borrow.{sem};
ghost use Rattle.std.specs.Prelude.{◌≡◌, ◌==◌, ◌+◌, ◌≤◌, [], ◌++◌, length, take, drop, IfOk};
ghost use Rattle.std.specs.Vec.{vec_capacity};

use bq_job::NoMemory;
use std::alloc::Global;
use std::marker::Model;

/// At most `ROOM` bytes, which leave at the front. The memory is allocated once and not touched
/// before the first bytes come, so an idle buffer uses hardly any. In contracts, its value is the
/// list of these bytes.
#[derive(Drop)]
pub struct ByteBuffer<const ROOM: usize> {
    room: Vec<u8, Global>,
    from: usize,
    to: usize,
}

impl<const ROOM: usize> Model for ByteBuffer<ROOM> {
    ghost use Rattle.std.specs.Prelude.{◌≤◌, List, ℕ, take, drop, length};
    ghost use Rattle.std.specs.Vec.{vec_capacity};

    ghost Value = { List ℕ };

    ghost view = { λ b. drop b.from (take b.to b.room.items) };

    ghost invariant = { λ b. (b.from ≤ b.to) × (b.to ≤ length b.room.items) × (length b.room.items ≤ ROOM) × (ROOM ≤ vec_capacity b.room) };
}

impl<const ROOM: usize> ByteBuffer<ROOM> {
    ghost use Rattle.bq_seat.specs.Lent.{LendsAll};

    /// Returns an empty buffer. Returns `NoMemory` if its allocation fails.
    pub fn new(alloc: Global) -> Result<ByteBuffer<ROOM>, NoMemory>
        ensures { IfOk result (λ buffer. buffer ≡ []) }
    {
        match Vec::with_capacity(alloc, ROOM) {
            Ok(room) => Ok(ByteBuffer {
                room,
                from: 0,
                to: 0,
            }),
            Err(_) => Err(NoMemory),
        }
    }

    /// Returns true if the buffer holds no bytes.
    pub fn is_empty(&self) -> bool
        ensures { result ≡ (length self.now == 0) }
    {
        self.from == self.to
    }

    /// Returns the bytes in the buffer.
    pub fn as_slice(&self) -> &[u8]
        ensures { result.now ≡ self.now }
    {
        &self.room[self.from..self.to]
    }

    /// Removes all bytes.
    pub fn clear(&mut self)
        ensures { self.new ≡ [] }
    {
        self.from = 0;
        self.to = 0;
    }

    /// Removes the first `n` bytes.
    pub fn drop_front(&mut self, n: usize)
        requires { n ≤ length self.old }
        ensures { self.new ≡ drop n self.old }
    {
        self.from += n;
    }

    /// Removes all bytes except the first `n`.
    pub fn truncate(&mut self, n: usize)
        requires { n ≤ length self.old }
        ensures { self.new ≡ take n self.old }
    {
        self.to = self.from + n;
    }

    /// Replaces the bytes with this piece.
    pub fn replace(&mut self, piece: &[u8])
        requires { length piece.now ≤ ROOM }
        ensures { self.new ≡ piece.now }
    {
        extend_to(&mut self.room, ROOM);
        write_front(&mut self.room, piece);
        self.from = 0;
        self.to = piece.len();
    }

    /// Replaces the bytes with this piece without its first `n` bytes.
    pub fn replace_by_rest(&mut self, piece: &[u8], n: usize)
        requires within { n ≤ length piece.now }
        requires fits { length piece.now ≤ ROOM + n }
        ensures { self.new ≡ drop n piece.now }
    {
        if n == piece.len() {
            return self.clear();
        }
        self.replace(&piece[n..]);
    }

    /// Makes the buffer full, with bytes of no particular value. The caller overwrites them through
    /// `as_mut_slice`, and drops the rest.
    pub fn make_full(&mut self)
        ensures { length self.new ≡ ROOM }
    {
        extend_to(&mut self.room, ROOM);
        self.from = 0;
        self.to = ROOM;
    }

    /// Lends the bytes of a full buffer.
    pub fn as_mut_slice(&mut self) -> &mut [u8]
        requires { length self.old ≡ ROOM }
        ensures* writes_back { sem 𝓛 (LendsAll ROOM.row self.entry result) }
        ensures value { result.now ≡ self.old }
    {
        self.room.as_mut_slice()
    }
}

// Extends the vector to this length, for which it has room.
fn extend_to(room: &mut Vec<u8, Global>, len: usize)
    requires few { length room.old.items ≤ len }
    requires fits { len ≤ vec_capacity room.old }
    ensures len { length room.new.items ≡ len }
    ensures capacity { len ≤ vec_capacity room.new }
{
    if room.len() < len {
        let _fits = room.resize(len, 0);
    }
}

// Overwrites the first bytes of `room` with `bytes`.
fn write_front(room: &mut [u8], bytes: &[u8])
    requires { length bytes.now ≤ length room.old }
    ensures { room.new ≡ bytes.now ++ drop (length bytes.now) room.old }
{
    room[..bytes.len()].copy_from_slice(bytes);
}
