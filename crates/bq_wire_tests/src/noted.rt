//! Requests in short form: a rejected one is its number, a put is followed by its body, and each
//! ends with `;`.

use bq_job::{Refusal, Request};

/// Returns the words of a request of these tests, in the protocol's words.
pub fn words_of(request: &Request) -> &'static str {
    match request {
        Request::Put { .. } => "put ",
        Request::Reserve => "reserve",
        Request::ListTubeUsed => "list-tube-used",
        Request::Delete { id: 1 } => "delete 1",
        Request::Delete { id: 3 } => "delete 3",
        Request::Peek { id: u64::MAX } => "peek 18446744073709551615",
        Request::Quit => "quit",
        Request::Refused(Refusal::UnknownCommand) => "101",
        Request::Refused(Refusal::BadFormat) => "102",
        Request::Refused(Refusal::JobTooBig) => "103",
        Request::Refused(Refusal::ExpectedCrlf) => "104",
        _ => "another request",
    }
}

// The body of a put, or nothing.
fn body_of(request: &Request) -> &[u8] {
    match request {
        Request::Put { body, .. } => body.as_slice(),
        _ => b"",
    }
}

// Returns what follows a request in short form, or `None` if the text begins with another one.
fn after<'w>(wanted: &'w [u8], request: &Request) -> Option<&'w [u8]> {
    let rest = wanted.strip_prefix(words_of(request).as_bytes())?;
    rest.strip_prefix(body_of(request))?.strip_prefix(b";")
}

/// Returns true if these requests have this short form.
pub fn are_noted(requests: &[Request], wanted: &[u8]) -> bool {
    let mut rest = wanted;
    for request in requests {
        match after(rest, request) {
            Some(later) => rest = later,
            None => return false,
        }
    }
    rest.is_empty()
}
