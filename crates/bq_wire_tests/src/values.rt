//! Values of the protocol: bodies of jobs, names of tubes, and the numbers of answers.

use bq_job::{Answer, Body, NoMemory, NumberedBody, Refusal, TubeName};
use std::alloc::Global;

const BYTES: &[u8] = b"0123456789abcdef0123456789ABCDEF0123456789ghijkl0123456789GHIJKL0123456789\
    mnopqr0123456789MNOPQR0123456789stuvwx0123456789STUVWX0123";

// Numbers of bytes around those at which a body begins to be kept in another way.
const LENGTHS: &[usize] = &[0, 1, 16, 17, 32, 33, 48, 49, 64, 65, 96, 97, 128, 129];

// Makes a body of these bytes, joins it and a number, and makes another reference to it.
fn is_made(alloc: Global, bytes: &[u8]) -> bool {
    match Body::new(alloc, bytes) {
        Ok(body) => {
            let is_whole = body.as_slice() == bytes;
            let numbered = NumberedBody::new(body, 4_000_000_000);
            let is_numbered = numbered.number() == 4_000_000_000 && is_shared(&numbered, bytes);
            drop(numbered);
            is_whole && is_numbered
        }
        Err(_) => false,
    }
}

fn is_shared(numbered: &NumberedBody, bytes: &[u8]) -> bool {
    match numbered.share() {
        Ok(body) => {
            let is_same = body.as_slice() == bytes;
            drop(body);
            is_same
        }
        Err(_) => false,
    }
}

// A body that is made of some bytes has these bytes, whatever their number.
fn are_made(alloc: Global) -> bool {
    for length in LENGTHS {
        if !is_made(alloc, &BYTES[..(*length).min(BYTES.len())]) {
            return false;
        }
    }
    BYTES.len() >= 129
}

// Returns true if a name has these bytes, and equals its copy and no other name.
fn is_name(bytes: &[u8]) -> bool {
    let (Some(name), Some(other)) = (TubeName::new(bytes), TubeName::new(b"other")) else {
        return false;
    };
    match name.clone() {
        Ok(copy) => copy == name && other != name && name.as_slice() == bytes,
        Err(_) => false,
    }
}

fn is_no_name(bytes: &[u8]) -> bool {
    TubeName::new(bytes).is_none()
}

// Which bytes form the name of a tube.
fn are_names() -> bool {
    for name in "default|aZ09-+/;.$_()|+".split('|') {
        if !is_name(name.as_bytes()) {
            return false;
        }
    }
    for text in "|-a|a b|a\r|\u{e9}".split('|') {
        if !is_no_name(text.as_bytes()) {
            return false;
        }
    }
    is_name(&[b'a'; 200]) && is_no_name(&[b'a'; 201])
}

fn has_number(answer: Answer, number: u16) -> bool {
    let code = answer.code().unwrap_or(0);
    drop(answer);
    code == number
}

// The numbers of refusals, of answers and of the fault.
fn are_numbers() -> bool {
    NoMemory.code() == 301
        && Refusal::UnknownCommand.code() == 101
        && Refusal::BadFormat.code() == 102
        && Refusal::JobTooBig.code() == 103
        && Refusal::ExpectedCrlf.code() == 104
        && Refusal::OutOfMemory.code() == 105
        && has_number(Answer::BadFormat, 102)
        && has_number(Answer::NotFound, 201)
        && has_number(Answer::NotIgnored, 202)
        && has_number(Answer::Draining, 203)
        && has_number(Answer::OutOfMemory, 204)
        && has_number(Answer::TimedOut, 205)
        && has_number(Answer::DeadlineSoon, 206)
        && has_number(Answer::Deleted, 0)
}

#[test]
fn values_of_the_protocol(rt: HostRuntime) {
    assert!(rt; are_made(rt.alloc()) && are_names() && are_numbers());
}
