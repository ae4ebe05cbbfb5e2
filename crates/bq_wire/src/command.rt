//! The commands of a client, one branch each: the command's word, the words that must follow it,
//! and the request that they make. The branches are grouped by the length of the command's word, so
//! that the first word of a command line is compared with only a few. After them come the functions
//! that read the words of a command.
ghost use Rattle.std.specs.Prelude.{◌≡◌, ◌==◌, ◌&&◌, [], ◌∷◌, nat_le, option_map, IfSome, IfNone, Option, Some, ℕ, List};
ghost use Rattle.bq_job.specs.reading.CommandWords as spec_words;
ghost use Rattle.bq_job.specs.reading.CommandWords.{command_named};
ghost use Rattle.bq_job.specs.reading.LineRead as spec;
ghost use Rattle.bq_job.specs.reading.TubeName.{is_same_name};
ghost use Rattle.bq_job.specs.reading.Words as spec_numbers;
ghost use Rattle.bq_job.specs.declared.request.Request.{Request};
ghost use Rattle.bq_wire.specs.Asked.{asked_by, only, IsNextNumber};
ghost use Rattle.bq_wire.specs.Named.{AsksFor, named_where};

use crate::line_read::{LineRead, PutLine, Words};
use bq_job::{JobId, Refusal, Request, TubeName};

/// Returns what a command line with this first word requests, or None if the words after it do not
/// fit the command. A complete request is put into `place`.
pub fn read_command(word: &[u8], words: &mut Words, place: &mut Request) -> Option<LineRead>
    ensures { AsksFor (command_named word.now) words.old result place.new }
{
    match word.len() {
        0..=4 => up_to_4(word, words, place),
        5..=6 => up_to_6(word, words, place),
        7..=9 => up_to_9(word, words, place),
        10 => of_10(word, words, place),
        _ => from_11(word, words, place),
    }
}

// For a first word of at most 4 letters.
fn up_to_4(word: &[u8], words: &mut Words, place: &mut Request) -> Option<LineRead>
    ensures { AsksFor (named_where (λ n. nat_le n 4) word.now) words.old result place.new }
{
    if is(word, b"put") {
        put_words(words)
    } else if is(word, b"use") {
        use_words(words, place)
    } else if is(word, b"bury") {
        bury_words(words, place)
    } else if is(word, b"kick") {
        let bound = number_word(words)?;
        whole(place, Request::Kick { bound })
    } else if is(word, b"peek") {
        let id = id_word(words)?;
        whole(place, Request::Peek { id })
    } else if is(word, b"quit") {
        no_words(words, place, Request::Quit)
    } else {
        unknown(place)
    }
}

// For a first word of 5 or 6 letters.
fn up_to_6(word: &[u8], words: &mut Words, place: &mut Request) -> Option<LineRead>
    ensures { AsksFor
        (named_where (λ n. nat_le 5 n && nat_le n 6) word.now) words.old result place.new }
{
    if is(word, b"touch") {
        let id = id_word(words)?;
        whole(place, Request::Touch { id })
    } else if is(word, b"watch") {
        watch_words(words, place)
    } else if is(word, b"stats") {
        no_words(words, place, Request::Stats)
    } else if is(word, b"delete") {
        let id = id_word(words)?;
        whole(place, Request::Delete { id })
    } else if is(word, b"ignore") {
        ignore_words(words, place)
    } else {
        unknown(place)
    }
}

// For a first word of 7 to 9 letters.
fn up_to_9(word: &[u8], words: &mut Words, place: &mut Request) -> Option<LineRead>
    ensures { AsksFor
        (named_where (λ n. nat_le 7 n && nat_le n 9) word.now) words.old result place.new }
{
    if is(word, b"reserve") {
        no_words(words, place, Request::Reserve)
    } else if is(word, b"release") {
        release_words(words, place)
    } else if is(word, b"kick-job") {
        let id = id_word(words)?;
        whole(place, Request::KickJob { id })
    } else if is(word, b"stats-job") {
        let id = id_word(words)?;
        whole(place, Request::StatsJob { id })
    } else {
        unknown(place)
    }
}

// For a first word of 10 letters.
fn of_10(word: &[u8], words: &mut Words, place: &mut Request) -> Option<LineRead>
    ensures { AsksFor (named_where (λ n. n == 10) word.now) words.old result place.new }
{
    if is(word, b"peek-ready") {
        no_words(words, place, Request::PeekReady)
    } else if is(word, b"pause-tube") {
        pause_words(words, place)
    } else if is(word, b"stats-tube") {
        let tube = tube_word(words)?;
        whole(place, Request::StatsTube { tube })
    } else if is(word, b"list-tubes") {
        no_words(words, place, Request::ListTubes)
    } else {
        unknown(place)
    }
}

// For a first word of 11 letters or more.
fn from_11(word: &[u8], words: &mut Words, place: &mut Request) -> Option<LineRead>
    ensures { AsksFor (named_where (λ n. nat_le 11 n) word.now) words.old result place.new }
{
    if is(word, b"reserve-with-timeout") {
        let seconds = number_word(words)?;
        whole(place, Request::ReserveWithTimeout { seconds })
    } else if is(word, b"reserve-job") {
        let id = id_word(words)?;
        whole(place, Request::ReserveJob { id })
    } else if is(word, b"peek-buried") {
        no_words(words, place, Request::PeekBuried)
    } else if is(word, b"peek-delayed") {
        no_words(words, place, Request::PeekDelayed)
    } else if is(word, b"list-tube-used") {
        no_words(words, place, Request::ListTubeUsed)
    } else if is(word, b"list-tubes-watched") {
        no_words(words, place, Request::ListTubesWatched)
    } else {
        unknown(place)
    }
}

/// Returns true if both are the same bytes.
pub fn is(word: &[u8], other: &[u8]) -> bool
    ensures { result ≡ is_same_name word.now other.now }
{
    word == other
}

// What a command line requests if its first word names no command.
fn unknown(place: &mut Request) -> Option<LineRead>
    ensures { option_map (λ read. asked_by read place.new) result ≡ Some spec.unknown_command }
{
    Some(refused(place, Refusal::UnknownCommand))
}

// Removes the next word and returns it as a number below 2^32, if it is one.
fn next_number(words: &mut Words) -> Option<u32>
    ensures { IsNextNumber words.old words.new result }
{
    u32::try_from(words.next_id()?).ok()
}

// Returns the remaining word if there is exactly one.
fn only_word<'a>(words: &mut Words<'a>) -> Option<&'a [u8]>
    ensures some { IfSome result (λ word. words.old ≡ word.now ∷ []) }
    ensures none { IfNone result (only Some words.old ≡ None) }
{
    let word = words.next()?;
    match words.next() {
        None => Some(word),
        Some(_) => None,
    }
}

// The job id, if it is the only remaining word.
#[tactic(auto, using(crate::proofs::WordLemmas::not_only))]
fn id_word(words: &mut Words) -> Option<JobId>
    ensures { result ≡ only spec_numbers.job_id words.old }
{
    let id = words.next_id()?;
    no_more(words)?;
    Some(id)
}

// The number below 2^32, if it is the only remaining word.
#[tactic(auto, using(crate::proofs::WordLemmas::not_only))]
fn number_word(words: &mut Words) -> Option<u32>
    ensures { result ≡ only spec_numbers.number words.old }
{
    let number = next_number(words)?;
    no_more(words)?;
    Some(number)
}

// The tube name, if it is the only remaining word.
fn tube_word(words: &mut Words) -> Option<TubeName>
    ensures { result ≡ only spec_numbers.tube_name words.old }
{
    TubeName::new(only_word(words)?)
}

/// Puts a request into `place`. A function of its own, so that the code that frees the old content is
/// proved once. Inlined, so that the request is made in `place`: even a short request takes as much
/// room as the longest tube name.
#[inline(always)]
pub fn put_in(place: &mut Request, request: Request)
    ensures { place.new ≡ request }
{
    *place = request;
}

#[inline(always)]
fn whole(place: &mut Request, request: Request) -> Option<LineRead>
    ensures { option_map (λ read. asked_by read place.new) result
        ≡ Some (spec.Whole request) }
{
    put_in(place, request);
    Some(LineRead::Whole)
}

// Returns `Some` if no words remain.
fn no_more(words: &mut Words) -> Option<()>
    ensures some { IfSome result (λ _. words.old ≡ []) }
    ensures none { IfNone result ((request : Request) → spec.no_words request words.old ≡ None) }
{
    match words.next() {
        None => Some(()),
        Some(_) => None,
    }
}

// What a command without further words requests.
#[inline(always)]
fn no_words(words: &mut Words, place: &mut Request, request: Request) -> Option<LineRead>
    ensures { option_map (λ read. asked_by read place.new) result
        ≡ spec.no_words request words.old }
{
    match words.next() {
        None => whole(place, request),
        Some(_) => {
            drop(request);
            None
        }
    }
}

// What the words of a use request. This and the next two are separate functions, because their callers would
// otherwise initialize room for a name on every path.
#[inline(never)]
fn use_words(words: &mut Words, place: &mut Request) -> Option<LineRead>
    ensures { option_map (λ read. asked_by read place.new) result
        ≡ spec.read_words spec_words.Command.Use words.old }
{
    let tube = tube_word(words)?;
    whole(place, Request::Use { tube })
}

// What the words of a watch request.
#[inline(never)]
fn watch_words(words: &mut Words, place: &mut Request) -> Option<LineRead>
    ensures { option_map (λ read. asked_by read place.new) result
        ≡ spec.read_words spec_words.Command.Watch words.old }
{
    let tube = tube_word(words)?;
    whole(place, Request::Watch { tube })
}

// What the words of an ignore request.
#[inline(never)]
fn ignore_words(words: &mut Words, place: &mut Request) -> Option<LineRead>
    ensures { option_map (λ read. asked_by read place.new) result
        ≡ spec.read_words spec_words.Command.Ignore words.old }
{
    let tube = tube_word(words)?;
    whole(place, Request::Ignore { tube })
}

// What the words of a put request.
fn put_words(words: &mut Words) -> Option<LineRead>
    ensures { (place : Request) → option_map (λ read. asked_by read place) result
        ≡ spec.put_words words.old }
{
    let pri = next_number(words)?;
    let delay = next_number(words)?;
    let ttr = next_number(words)?;
    let bytes = next_number(words)?;
    match words.next() {
        None => Some(LineRead::PutWaits(PutLine {
            pri,
            delay,
            ttr,
            bytes,
        })),
        Some(_) => None,
    }
}

// What the words of a release request.
fn release_words(words: &mut Words, place: &mut Request) -> Option<LineRead>
    ensures { option_map (λ read. asked_by read place.new) result
        ≡ spec.release_words words.old }
{
    let id = words.next_id()?;
    let pri = next_number(words)?;
    let delay = next_number(words)?;
    no_words(words, place, Request::Release { id, pri, delay })
}

// What the words of a bury request.
fn bury_words(words: &mut Words, place: &mut Request) -> Option<LineRead>
    ensures { option_map (λ read. asked_by read place.new) result
        ≡ spec.read_words spec_words.Command.Bury words.old }
{
    let id = words.next_id()?;
    let pri = next_number(words)?;
    no_words(words, place, Request::Bury { id, pri })
}

// What the words of a pause request.
fn pause_words(words: &mut Words, place: &mut Request) -> Option<LineRead>
    ensures { option_map (λ read. asked_by read place.new) result
        ≡ spec.read_words spec_words.Command.PauseTube words.old }
{
    let tube = TubeName::new(words.next()?)?;
    let delay = next_number(words)?;
    no_words(words, place, Request::PauseTube { tube, delay })
}

/// Makes the line a rejected request, whatever its words are.
pub fn refused(place: &mut Request, why: Refusal) -> LineRead
    ensures { asked_by result place.new ≡ spec.Whole (Request.Refused why) }
{
    put_in(place, Request::Refused(why));
    LineRead::Whole
}
