//! Command lines: where they end, their words, and what they request.
ghost use Rattle.std.specs.Prelude.{◌≡◌, ◌<◌, ◌≤◌, ◌+◌, ◌^◌, [], ◌∷◌, IfSome, Some, None, MatchOption};
ghost use Rattle.std.specs.Prelude.{length, drop, take, get_or, if◌then◌else◌, false, true};
ghost use Rattle.std.specs.List.{list_all};
ghost use Rattle.std.specs.Option.{SomeIff};
ghost use Rattle.bq_job.specs.reading.CommandWords.{command_named};
ghost use Rattle.bq_job.specs.reading.LineRead as spec;
ghost use Rattle.bq_job.specs.reading.Words as numbers;
ghost use Rattle.bq_job.specs.reading.Words.{words};
ghost use Rattle.bq_wire.specs.Asked.{asked_by, IsNextId};
ghost use Rattle.bq_wire.specs.LineEnds as ends;
ghost use Rattle.bq_wire.specs.WordsLeft.{is_letter, words_left};

use crate::command::{read_command, refused};
use bq_job::{JobId, Pri, Refusal, Request};
use memchr::memchr;
use std::marker::Model;

/// The greatest length of a command line, in bytes, without its CR LF.
pub const LONGEST_LINE: usize = 222;

// A number up to this one fits in 64 bits with any further digit.
const MOST_TO_EXTEND: u64 = 1_844_674_407_370_955_160;

/// The numbers on the command line of a put, as written.
#[derive(Clone, Copy)]
pub struct PutLine {
    pub pri: Pri,
    /// The delay in seconds.
    pub delay: u32,
    /// The time to run in seconds. A 0 is kept here; the core makes it 1.
    pub ttr: u32,
    /// The number of bytes in the body.
    pub bytes: u32,
}

/// What a command line requests.
#[derive(Clone, Copy)]
pub enum LineRead {
    /// A complete request, which is in the place that the caller passed.
    Whole,
    /// A put whose body follows the command line.
    PutWaits(PutLine),
}

/// Returns what a command line requests, given without its CR LF. A complete request is put into
/// `place`.
pub fn read_line(line: &[u8], place: &mut Request) -> LineRead
    ensures { asked_by result place.new ≡ spec.read_line line.now }
{
    if line.len() > LONGEST_LINE {
        return refused(place, Refusal::BadFormat);
    }
    let mut words = Words::new(line);
    match words.next() {
        None => refused(place, Refusal::UnknownCommand),
        Some(first) => read_named(first, &mut words, place),
    }
}

// What the first word and the words after it request.
#[tactic(auto, using(std::proofs::lemmas::Grind::common_steps))]
fn read_named(first: &[u8], words: &mut Words, place: &mut Request) -> LineRead
    ensures { asked_by result place.new
        ≡ spec.read_command (command_named first.now) words.old }
{
    match read_command(first, words, place) {
        Some(read) => read,
        None => refused(place, Refusal::BadFormat),
    }
}

// The position of a line feed, and whether it follows a CR.
#[derive(Clone, Copy)]
struct LineFeed {
    at: usize,
    behind_cr: bool,
}

// Returns the first line feed. `after_cr` says whether the first byte follows a CR.
#[tactic(auto, using(crate::proofs::LineEndLemmas::no_feed, crate::proofs::LineEndLemmas::feed_at))]
fn first_line_feed(after_cr: bool, bytes: &[u8]) -> Option<LineFeed>
    ensures found { MatchOption result (ends.line_end_after after_cr bytes.now ≡ None) (λ feed. ends.line_end_after after_cr bytes.now
        ≡ (if feed.behind_cr then Some (feed.at + 1) else ends.later_by (feed.at + 1)
        (ends.line_end_after false (drop (feed.at + 1) bytes.now)))) }
    ensures within { MatchOption result (Unit {0}) (λ feed. feed.at < length bytes.now) }
{
    match memchr(b'\n', bytes) {
        None => None,
        Some(at) => Some(LineFeed {
            at,
            behind_cr: ends_in_cr(after_cr, &bytes[..at]),
        }),
    }
}

/// Returns true if the last byte is a CR; `after_cr` if there is no byte.
#[tactic(auto, using(crate::proofs::LineEndLemmas::last_is_cr_last, std::proofs::lemmas::Grind::common_steps))]
pub fn ends_in_cr(after_cr: bool, bytes: &[u8]) -> bool
    ensures { result ≡ ends.last_is_cr after_cr bytes.now }
{
    match bytes.last() {
        None => after_cr,
        Some(byte) => *byte == b'\r',
    }
}

/// Returns the number of bytes up to and including the first LF that follows a CR. `after_cr` says
/// whether the first byte follows a CR.
pub fn line_end_after(after_cr: bool, bytes: &[u8]) -> Option<usize>
    ensures value { result ≡ ends.line_end_after after_cr bytes.now }
    ensures some { IfSome result (λ end. 0 < end) }
    ensures within { IfSome result (λ end. end ≤ length bytes.now) }
{
    let mut after_cr = after_cr;
    let mut passed = 0;
    while let Some(feed) = first_line_feed(after_cr, &bytes[passed..]) {
        passed += feed.at + 1;
        if feed.behind_cr {
            return Some(passed);
        }
        after_cr = false;
    }
    None
}

/// The remaining words of a command line. The line is split at each space, so a word may be empty.
#[derive(Drop)]
pub struct Words<'a> {
    // The bytes after the last space, unless they were returned already.
    rest: Option<&'a [u8]>,
}

impl<'a> Model for Words<'a> {
    ghost use Rattle.std.specs.Prelude.{List, ℕ};

    ghost Value = { List (List ℕ) };

    ghost use Rattle.bq_wire.specs.WordsLeft.{words_left};

    ghost view = { λ w. words_left w.rest };
}

impl<'a> Words<'a> {
    /// Returns the words of the command line `line`.
    pub fn new(line: &'a [u8]) -> Words<'a>
        ensures { result ≡ words line.now }
    {
        Words { rest: Some(line) }
    }

    /// Removes the first of the remaining words and returns the job id that it denotes. Returns None
    /// if there is no word, or if it is not a number below 2^64.
    pub fn next_id(&mut self) -> Option<JobId>
        ensures { IsNextId self.old self.new result }
    {
        match leading_id(self.rest?) {
            Some((id, more)) => {
                self.rest = more;
                Some(id)
            }
            None => self.next_long_id(),
        }
    }

    // Does the same for a word that is no number, or nearly too large a one.
    #[inline(never)]
    fn next_long_id(&mut self) -> Option<JobId>
        ensures { IsNextId self.old self.new result }
    {
        job_id(self.next()?)
    }

    /// Removes and returns the first of the remaining words.
    pub fn next(&mut self) -> Option<&'a [u8]>
        ensures { MatchOption result ((self.old ≡ []) × (self.new ≡ []))
            (λ word. self.old ≡ word.now ∷ self.new) }
    {
        let (word, more) = first_word(self.rest?);
        self.rest = more;
        Some(word)
    }
}

// The first word of a command line, and the rest after the space that follows it.
#[tactic(auto, using(crate::proofs::WordLemmas::only_word, crate::proofs::WordLemmas::words_first))]
fn first_word(line: &[u8]) -> (&[u8], Option<&[u8]>)
    ensures { words line.now ≡ result.0.now ∷ words_left result.1 }
{
    let letters = first_letters(line);
    if letters == line.len() {
        (line, None)
    } else {
        (&line[..letters], Some(&line[letters + 1..]))
    }
}

// Returns how many bytes there are before the first space. The words of commands are so short that
// a search by many bytes at a time costs more.
#[tactic(auto, using(crate::proofs::WordLemmas::letters_more))]
fn first_letters(line: &[u8]) -> usize
    ensures within { result ≤ length line.now }
    ensures letters { list_all is_letter (take result line.now) ≡ true }
    ensures space { result < length line.now → get_or line.now result 0 ≡ 32 }
{
    let mut letters = 0;
    while letters < line.len() && line[letters] != b' ' {
        letters += 1;
    }
    letters
}

/// Returns the number that the first bytes of a command line denote, and how many bytes it has. It
/// ends before the first byte that is no digit, or before a digit that might make it too large for 64
/// bits.
#[tactic(auto, using(crate::proofs::WordLemmas::digits_more, crate::proofs::WordLemmas::value_more))]
pub fn leading_digits(line: &[u8]) -> (u64, usize)
    ensures within { result.1 ≤ length line.now }
    ensures digits { list_all numbers.is_digit (take result.1 line.now) ≡ true }
    ensures value { result.0 ≡ numbers.value_of_digits (take result.1 line.now) }
{
    let mut value: u64 = 0;
    let mut digits = 0;
    while digits < line.len() && line[digits].is_ascii_digit() && value <= MOST_TO_EXTEND {
        value = value * 10 + u64::from(line[digits] - b'0');
        digits += 1;
    }
    (value, digits)
}

// Returns the job id that the first word of a command line denotes, and the rest after the space that
// follows it. The word is read once, and not searched for its end first. Returns None if it denotes
// no job id, or one that is nearly too large.
#[tactic(auto, using(crate::proofs::WordLemmas::id_at_end, crate::proofs::WordLemmas::id_before_space))]
fn leading_id(line: &[u8]) -> Option<(JobId, Option<&[u8]>)>
    ensures { IfSome result (λ found. IsNextId (words line.now) (words_left found.1) (Some found.0)) }
{
    let (id, digits) = leading_digits(line);
    if digits == 0 {
        return None;
    }
    if digits == line.len() {
        return Some((id, None));
    }
    if line[digits] == b' ' {
        return Some((id, Some(&line[digits + 1..])));
    }
    None
}

// Returns the number with one more digit, if it fits in 64 bits.
fn with_digit(value: u64, digit: u8) -> Option<u64>
    requires { 48 ≤ digit }
    ensures { SomeIff result (numbers.with_digit value digit < 2 ^ 64) (numbers.with_digit value digit) }
{
    let Some(shifted) = value.checked_mul(10) else {
        return None;
    };
    shifted.checked_add(u64::from(digit - b'0'))
}

/// Returns the job id that a word denotes, or None if it is not a number below 2^64.
#[tactic(auto, using(crate::proofs::WordLemmas::too_great, crate::proofs::WordLemmas::all_digits))]
pub fn job_id(word: &[u8]) -> Option<JobId>
    ensures { result ≡ numbers.job_id word.now }
{
    if word.is_empty() {
        return None;
    }
    let mut value: u64 = 0;
    for byte in word {
        if !byte.is_ascii_digit() {
            return None;
        }
        let Some(longer) = with_digit(value, *byte) else {
            return None;
        };
        value = longer;
    }
    Some(value)
}
