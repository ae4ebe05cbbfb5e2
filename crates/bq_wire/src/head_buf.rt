//! The buffer for the head of an answer.
ghost use Rattle.std.specs.Prelude.{◌≡◌, ◌+◌, ◌≤◌, ◌++◌, [], length, take};

use std::marker::Model;

/// The largest length of the head of an answer, in bytes.
pub const HEAD_ROOM: usize = 256;

/// A buffer for the head of an answer, in a fixed array. To clear it costs nothing, since the bytes
/// that it held are not overwritten. In contracts, its value is the list of its bytes.
#[derive(Drop)]
pub struct HeadBuf {
    room: [u8; HEAD_ROOM],
    len: usize,
}

impl Model for HeadBuf {
    ghost use Rattle.std.specs.Prelude.{◌≡◌, ◌≤◌, List, ℕ, length, take};

    ghost Value = { List ℕ };

    ghost view = { λ h. take h.len h.room };

    ghost invariant = { λ h. (h.len ≤ 256) × (length h.room ≡ 256) };
}

impl HeadBuf {
    /// Returns an empty buffer.
    pub fn new() -> HeadBuf
        ensures { result ≡ [] }
    {
        HeadBuf {
            room: [0; HEAD_ROOM],
            len: 0,
        }
    }

    /// Returns the bytes.
    pub fn as_slice(&self) -> &[u8]
        ensures value { result.now ≡ self.now }
        ensures fits { length result.now ≤ 256 }
    {
        &self.room[..self.len]
    }

    /// Returns how many more bytes fit.
    pub fn left(&self) -> usize
        ensures { result + length self.now ≡ 256 }
    {
        HEAD_ROOM - self.len
    }

    /// Removes all bytes.
    pub fn clear(&mut self)
        ensures { self.new ≡ [] }
    {
        self.len = 0;
    }

    /// Appends bytes, of which there are mostly few: up to six are copied without a call.
    pub fn push_few(&mut self, more: &[u8])
        requires { length self.old + length more.now ≤ 256 }
        ensures { self.new ≡ self.old ++ more.now }
    {
        match more {
            [a] => self.push(&[*a]),
            [a, b] => self.push(&[*a, *b]),
            [a, b, c] => self.push(&[*a, *b, *c]),
            [a, b, c, d] => self.push(&[*a, *b, *c, *d]),
            [a, b, c, d, e] => self.push(&[*a, *b, *c, *d, *e]),
            [a, b, c, d, e, f] => self.push(&[*a, *b, *c, *d, *e, *f]),
            _ => self.push_many(more),
        }
    }

    // Does the same for any number of bytes. A separate function, so that its caller saves no registers
    // for the copy.
    #[inline(never)]
    fn push_many(&mut self, more: &[u8])
        requires { length self.old + length more.now ≤ 256 }
        ensures { self.new ≡ self.old ++ more.now }
    {
        self.push(more);
    }

    /// Appends bytes. The caller ensures that they fit.
    #[inline]
    pub fn push(&mut self, more: &[u8])
        requires { length self.old + length more.now ≤ 256 }
        ensures { self.new ≡ self.old ++ more.now }
    {
        self.len = put_at(&mut self.room, self.len, more);
    }
}

// Copies the bytes to this place of the room, and returns where they end.
#[inline(always)]
fn put_at(room: &mut [u8], at: usize, bytes: &[u8]) -> usize
    requires { at + length bytes.now ≤ length room.old }
    ensures end { result ≡ at + length bytes.now }
    ensures held { take result room.new ≡ take at room.old ++ bytes.now }
    ensures len { length room.new ≡ length room.old }
{
    let end = at + bytes.len();
    room[at..end].copy_from_slice(bytes);
    end
}
