//! How the bytes of a body are kept.
ghost use Rattle.std.specs.Arc.{arc_value};
ghost use Rattle.std.specs.Prelude.{◌≡◌, ◌≤◌, ◌+◌, ◌-◌, ◌++◌, [], IfOk, OnOk, length, take, vec_len};
ghost use Rattle.std.specs.Vec.{vec_capacity};
ghost use Rattle.bq_job.specs.beside.KeptBytes.{bytes_in, note_in, room_in};

use super::NoMemory;
use std::alloc::Global;
use std::mem::size_of;
use std::sync::Arc;

/// Bytes that several references share, and a number that each reference has of its own.
///
/// Up to 128 bytes are in one allocation with the count of the references: in an array of one of
/// six lengths, and the first number says how many bytes at its front are in use. More bytes are in
/// a vector, which is an allocation of its own. The second number is the reference's own. Both
/// numbers are between the tag and the pointer, so they take no memory.
#[derive(Drop)]
pub(crate) enum Bytes {
    UpTo16(u8, u32, Arc<[u8; 16], Global>),
    UpTo32(u8, u32, Arc<[u8; 32], Global>),
    UpTo48(u8, u32, Arc<[u8; 48], Global>),
    UpTo64(u8, u32, Arc<[u8; 64], Global>),
    UpTo96(u8, u32, Arc<[u8; 96], Global>),
    UpTo128(u8, u32, Arc<[u8; 128], Global>),
    Long(u32, Arc<Vec<u8, Global>, Global>),
}

const _: () = prove!(size_of::<Bytes>() == 16);

// Allocates an array of zeros.
fn zeros<const N: usize>(alloc: Global) -> Result<Arc<[u8; N], Global>, NoMemory>
    ensures { IfOk result (λ kept. length (arc_value kept) ≡ N) }
{
    match Arc::new(alloc, [0; N]) {
        Ok(shared) => Ok(shared),
        Err(_) => Err(NoMemory),
    }
}

// Writes bytes into an array after the first `count` ones, and counts them. Returns `NoMemory` if
// they do not fit.
fn write_after<const N: usize>(
    place: &mut [u8; N],
    count: &mut u8,
    bytes: &[u8],
) -> Result<(), NoMemory>
    ensures bytes { OnOk result (take count.new place.new ≡ take count.old place.old ++ bytes.now) }
    ensures sum { OnOk result (count.new ≡ count.old + length bytes.now) }
{
    let from = usize::from(*count);
    if bytes.len() > 255 {
        return Err(NoMemory);
    }
    let to = from + bytes.len();
    if to > N || to > 255 {
        return Err(NoMemory);
    }
    let whole = &mut place[..];
    let after = &mut whole[from..to];
    after.copy_from_slice(bytes);
    *count = to as u8;
    Ok(())
}

// Appends bytes to the first `count` ones of an array that is not shared yet. Returns `NoMemory` if
// they do not fit, or if `Arc` does not give access to its only owner.
fn append_short<const N: usize>(
    count: &mut u8,
    kept: &mut Arc<[u8; N], Global>,
    bytes: &[u8],
) -> Result<(), NoMemory>
    ensures bytes { OnOk result
        (take count.new (arc_value kept.new) ≡ take count.old (arc_value kept.old) ++ bytes.now) }
    ensures room { OnOk result (N - count.old ≤ N - count.new + length bytes.now) }
{
    let Some(place) = Arc::get_mut(kept) else {
        return Err(NoMemory);
    };
    write_after(place, count, bytes)
}

// Appends bytes to a vector that is not shared yet and has room for them. Returns `NoMemory` if
// `Arc` does not give access to its only owner.
fn append_long(kept: &mut Arc<Vec<u8, Global>, Global>, bytes: &[u8]) -> Result<(), NoMemory>
    requires { length bytes.now
        ≤ vec_capacity (arc_value kept.old) - vec_len (arc_value kept.old) }
    ensures bytes { OnOk result
        ((arc_value kept.new).items ≡ (arc_value kept.old).items ++ bytes.now) }
    ensures room { OnOk result (vec_capacity (arc_value kept.old) - vec_len (arc_value kept.old)
        ≤ vec_capacity (arc_value kept.new) - vec_len (arc_value kept.new) + length bytes.now) }
{
    let Some(place) = Arc::get_mut(kept) else {
        return Err(NoMemory);
    };
    let _fits = place.extend_from_slice(bytes);
    Ok(())
}

// Returns another reference, or `NoMemory` if `Arc` refuses one.
fn shared<T>(bytes: &Arc<T, Global>) -> Result<Arc<T, Global>, NoMemory>
    ensures { IfOk result (λ other. arc_value other ≡ arc_value bytes.now) }
{
    match Arc::try_clone(bytes) {
        Ok(other) => Ok(other),
        Err(_) => Err(NoMemory),
    }
}

// Returns the first bytes of a list, or all of them if there are fewer.
fn front(bytes: &[u8], count: u8) -> &[u8]
    ensures { result.now ≡ take count bytes.now }
{
    let count = usize::from(count);
    if count < bytes.len() {
        &bytes[..count]
    } else {
        bytes
    }
}

// Returns no bytes, and room for more than 128.
fn with_long_room(alloc: Global, size: usize) -> Result<Bytes, NoMemory>
    ensures empty { IfOk result (λ b. bytes_in b ≡ []) }
    ensures room { IfOk result (λ b. size ≤ room_in b) }
{
    let Ok(bytes) = Vec::with_capacity(alloc, size) else {
        return Err(NoMemory);
    };
    match Arc::new(alloc, bytes) {
        Ok(kept) => Ok(Bytes::Long(0, kept)),
        Err(_) => Err(NoMemory),
    }
}

impl Bytes {
    /// Returns no bytes, and room for `size`. Returns `NoMemory` if an allocation fails.
    pub(crate) fn with_room(alloc: Global, size: usize) -> Result<Bytes, NoMemory>
        ensures empty { IfOk result (λ b. bytes_in b ≡ []) }
        ensures room { IfOk result (λ b. size ≤ room_in b) }
    {
        match size {
            0..=16 => Ok(Bytes::UpTo16(0, 0, zeros(alloc)?)),
            17..=32 => Ok(Bytes::UpTo32(0, 0, zeros(alloc)?)),
            33..=48 => Ok(Bytes::UpTo48(0, 0, zeros(alloc)?)),
            49..=64 => Ok(Bytes::UpTo64(0, 0, zeros(alloc)?)),
            65..=96 => Ok(Bytes::UpTo96(0, 0, zeros(alloc)?)),
            97..=128 => Ok(Bytes::UpTo128(0, 0, zeros(alloc)?)),
            _ => with_long_room(alloc, size),
        }
    }

    /// Appends bytes, for which there is room, if this is the only reference. It allocates nothing.
    /// Returns `NoMemory` if `Arc` does not give access to its only owner.
    pub(crate) fn append(&mut self, bytes: &[u8]) -> Result<(), NoMemory>
        requires { length bytes.now ≤ room_in self.old }
        ensures bytes { OnOk result (bytes_in self.new ≡ bytes_in self.old ++ bytes.now) }
        ensures room { OnOk result (room_in self.old ≤ room_in self.new + length bytes.now) }
    {
        match self {
            Bytes::UpTo16(count, _, kept) => append_short(count, kept, bytes),
            Bytes::UpTo32(count, _, kept) => append_short(count, kept, bytes),
            Bytes::UpTo48(count, _, kept) => append_short(count, kept, bytes),
            Bytes::UpTo64(count, _, kept) => append_short(count, kept, bytes),
            Bytes::UpTo96(count, _, kept) => append_short(count, kept, bytes),
            Bytes::UpTo128(count, _, kept) => append_short(count, kept, bytes),
            Bytes::Long(_, kept) => append_long(kept, bytes),
        }
    }

    /// Returns another reference to the same bytes. It allocates nothing, and fails only if `Arc`
    /// refuses another reference.
    pub(crate) fn share(&self) -> Result<Bytes, NoMemory>
        ensures { IfOk result (λ other. bytes_in other ≡ bytes_in self.now) }
    {
        match self {
            Bytes::UpTo16(count, note, kept) => Ok(Bytes::UpTo16(*count, *note, shared(kept)?)),
            Bytes::UpTo32(count, note, kept) => Ok(Bytes::UpTo32(*count, *note, shared(kept)?)),
            Bytes::UpTo48(count, note, kept) => Ok(Bytes::UpTo48(*count, *note, shared(kept)?)),
            Bytes::UpTo64(count, note, kept) => Ok(Bytes::UpTo64(*count, *note, shared(kept)?)),
            Bytes::UpTo96(count, note, kept) => Ok(Bytes::UpTo96(*count, *note, shared(kept)?)),
            Bytes::UpTo128(count, note, kept) => Ok(Bytes::UpTo128(*count, *note, shared(kept)?)),
            Bytes::Long(note, kept) => Ok(Bytes::Long(*note, shared(kept)?)),
        }
    }

    /// Returns the bytes.
    pub(crate) fn as_slice(&self) -> &[u8]
        ensures { result.now ≡ bytes_in self.now }
    {
        match self {
            Bytes::UpTo16(count, _, kept) => front(kept.as_slice(), *count),
            Bytes::UpTo32(count, _, kept) => front(kept.as_slice(), *count),
            Bytes::UpTo48(count, _, kept) => front(kept.as_slice(), *count),
            Bytes::UpTo64(count, _, kept) => front(kept.as_slice(), *count),
            Bytes::UpTo96(count, _, kept) => front(kept.as_slice(), *count),
            Bytes::UpTo128(count, _, kept) => front(kept.as_slice(), *count),
            Bytes::Long(_, kept) => kept.as_slice(),
        }
    }

    /// Returns the reference's own number.
    pub(crate) fn note(&self) -> u32
        ensures { result ≡ note_in self.now }
    {
        match self {
            Bytes::UpTo16(_, note, _)
            | Bytes::UpTo32(_, note, _)
            | Bytes::UpTo48(_, note, _)
            | Bytes::UpTo64(_, note, _)
            | Bytes::UpTo96(_, note, _)
            | Bytes::UpTo128(_, note, _)
            | Bytes::Long(note, _) => *note,
        }
    }

    /// Returns the same reference with another number.
    pub(crate) fn with_note(self, note: u32) -> Bytes
        ensures bytes { bytes_in result ≡ bytes_in self }
        ensures note { note_in result ≡ note }
    {
        match self {
            Bytes::UpTo16(count, _, kept) => Bytes::UpTo16(count, note, kept),
            Bytes::UpTo32(count, _, kept) => Bytes::UpTo32(count, note, kept),
            Bytes::UpTo48(count, _, kept) => Bytes::UpTo48(count, note, kept),
            Bytes::UpTo64(count, _, kept) => Bytes::UpTo64(count, note, kept),
            Bytes::UpTo96(count, _, kept) => Bytes::UpTo96(count, note, kept),
            Bytes::UpTo128(count, _, kept) => Bytes::UpTo128(count, note, kept),
            Bytes::Long(_, kept) => Bytes::Long(note, kept),
        }
    }
}
