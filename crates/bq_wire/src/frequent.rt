//! The lines of the most frequent commands: put, reserve and delete. Such a line is read in one pass: its
//! end and its words are not searched for before.
ghost use Rattle.std.specs.Prelude.{◌≡◌, ◌≤◌, ◌<◌, ◌++◌, ◌∷◌, [], ℕ, List, IfSome, codes, length, take};
ghost use Rattle.bq_job.specs.declared.request.Request.{Request};
ghost use Rattle.bq_job.specs.declared.request.Request.TheVariants as requests;
ghost use Rattle.bq_job.specs.reading.LineRead.{Whole, longest_line};
ghost use Rattle.bq_job.specs.reading.Words.{job_id, number};
ghost use Rattle.bq_wire.specs.Asked.{asked_by};
ghost use Rattle.bq_wire.specs.Leading.{Leads};
ghost use Rattle.bq_wire.specs.Standing.{IsLineAsking};

use crate::command::put_in;
use crate::line_read::{LONGEST_LINE, LineRead, PutLine, leading_digits};
use bq_job::Request;

/// A command line that ends in a piece of bytes.
#[derive(Clone, Copy)]
pub struct EndedLine {
    /// How many bytes there are up to and including its CR LF.
    pub end: usize,
    /// What it requests.
    pub read: LineRead,
}

/// Reads the command line at the beginning of the piece, if it is one of a put, a reserve or a delete,
/// is right, and ends in the piece. A complete request is put into `place`.
#[tactic(auto, using(crate::proofs::FrequentLemmas::reserve_is))]
#[inline(always)]
pub fn frequent_line(piece: &[u8], place: &mut Request) -> Option<EndedLine>
    ensures some { IfSome result (λ line. 0 < line.end) }
    ensures within { IfSome result (λ line. line.end ≤ length piece.now) }
    ensures asks { IfSome result (λ line. IsLineAsking (asked_by line.read place.new) (take line.end piece.now)) }
{
    if let Some(numbers) = behind_put(piece) {
        return put_line(piece, numbers);
    }
    if let Some(_) = behind_reserve(piece) {
        return Some(reserve_line(place));
    }
    delete_line(piece, behind_delete(piece)?, place)
}

// Returns the bytes after the word of a put and a space, if the piece begins with them. The words are
// compared as patterns, byte by byte, which takes fewer instructions than comparing slices.
#[inline(always)]
fn behind_put(piece: &[u8]) -> Option<&[u8]>
    ensures { IfSome result (λ rest. piece.now ≡ codes "put " ++ rest.now) }
{
    match piece {
        [b'p', b'u', b't', b' ', ..] => Some(&piece[4..]),
        _ => None,
    }
}

// The same for a delete.
#[inline(always)]
fn behind_delete(piece: &[u8]) -> Option<&[u8]>
    ensures { IfSome result (λ rest. piece.now ≡ codes "delete " ++ rest.now) }
{
    match piece {
        [b'd', b'e', b'l', b'e', b't', b'e', b' ', ..] => Some(&piece[7..]),
        _ => None,
    }
}

// The same for a reserve and its CR LF.
#[inline(always)]
fn behind_reserve(piece: &[u8]) -> Option<&[u8]>
    ensures { IfSome result (λ rest. piece.now ≡ codes "reserve" ++ 13 ∷ 10 ∷ rest.now) }
{
    match piece {
        [b'r', b'e', b's', b'e', b'r', b'v', b'e', b'\r', b'\n', ..] => Some(&piece[9..]),
        _ => None,
    }
}

// The line of a reserve.
#[inline(always)]
fn reserve_line(place: &mut Request) -> EndedLine
    ensures { (result.end ≡ 9) × (asked_by result.read place.new ≡ Whole requests.Reserve) }
{
    put_in(place, Request::Reserve);
    EndedLine {
        end: 9,
        read: LineRead::Whole,
    }
}

// The line of a delete. Its word was passed.
#[inline(always)]
#[tactic(auto, using(crate::proofs::FrequentLemmas::delete_is))]
fn delete_line(piece: &[u8], numbers: &[u8], place: &mut Request) -> Option<EndedLine>
    requires { piece.now ≡ codes "delete " ++ numbers.now }
    ensures some { IfSome result (λ line. 0 < line.end) }
    ensures within { IfSome result (λ line. line.end ≤ length piece.now) }
    ensures asks { IfSome result (λ line. IsLineAsking (asked_by line.read place.new) (take line.end piece.now)) }
{
    let (id, rest) = id_before(numbers, b'\r')?;
    let end = end_before(piece, rest)?;
    put_in(place, Request::Delete { id });
    Some(EndedLine {
        end,
        read: LineRead::Whole,
    })
}

// The line of a put. Its word was passed.
#[inline(always)]
#[tactic(auto, using(crate::proofs::FrequentLemmas::put_is))]
fn put_line(piece: &[u8], numbers: &[u8]) -> Option<EndedLine>
    requires { piece.now ≡ codes "put " ++ numbers.now }
    ensures some { IfSome result (λ line. 0 < line.end) }
    ensures within { IfSome result (λ line. line.end ≤ length piece.now) }
    ensures asks { IfSome result (λ line. (place : Request) → IsLineAsking (asked_by line.read place) (take line.end piece.now)) }
{
    let (pri, after_pri) = number_before(numbers, b' ')?;
    let (delay, after_delay) = number_before(after_pri, b' ')?;
    let (ttr, after_ttr) = number_before(after_delay, b' ')?;
    let (bytes, rest) = number_before(after_ttr, b'\r')?;
    let end = end_before(piece, rest)?;
    let put = PutLine {
        pri,
        delay,
        ttr,
        bytes,
    };
    Some(EndedLine {
        end,
        read: LineRead::PutWaits(put),
    })
}

// Returns the number below 2^64 that a text begins with, and the text after the byte `stop`, which
// must follow the number. A number of 20 digits may be refused.
#[inline(always)]
fn id_before(text: &[u8], stop: u8) -> Option<(u64, &[u8])>
    ensures { IfSome result (λ found. Leads job_id stop found.0 text.now found.1.now) }
{
    let (id, digits) = leading_digits(text);
    if digits == 0 || digits == text.len() || text[digits] != stop {
        return None;
    }
    Some((id, &text[digits + 1..]))
}

// The same for a number below 2^32.
#[inline(always)]
fn number_before(text: &[u8], stop: u8) -> Option<(u32, &[u8])>
    ensures { IfSome result (λ found. Leads number stop found.0 text.now found.1.now) }
{
    let (number, rest) = id_before(text, stop)?;
    if number > u64::from(u32::MAX) {
        return None;
    }
    Some((number as u32, rest))
}

// Returns where a line ends whose LF is the first byte of `rest`, if it is not too long.
#[inline(always)]
fn end_before(piece: &[u8], rest: &[u8]) -> Option<usize>
    requires { length rest.now ≤ length piece.now }
    ensures some { IfSome result (λ end. 0 < end) }
    ensures within { IfSome result (λ end. end ≤ length piece.now) }
    ensures line { IfSome result (λ end. (front : List ℕ) → piece.now ≡ front ++ rest.now
        → (take end piece.now ≡ front ++ 10 ∷ []) × (length front ≤ longest_line)) }
{
    let passed = piece.len() - rest.len();
    if passed > LONGEST_LINE || rest.is_empty() || rest[0] != b'\n' {
        return None;
    }
    Some(passed + 1)
}
