//! The reader's call that returns the request as a value. A server uses `RequestReader::take`
//! instead, which copies no request.
ghost use Rattle.std.specs.Prelude.{◌≡◌, ◌≤◌, ◌<◌, ℕ, List, None, IfSome, length};
ghost use Rattle.bq_wire.specs.HasRead.{ReadsOn};
ghost use Rattle.bq_wire.specs.Standing.{HandsRequest, IsOver, Stands, Waits, request_in};

use crate::reader::{RequestReader, Taken};
use bq_job::Request;
use std::alloc::Global;

impl RequestReader {
    /// Takes bytes up to and including the last byte of the first complete request, or all of them.
    /// Returns how many bytes it took, and the request. After a quit it takes none until `restart`.
    /// It allocates only the body of a put, when the put's command line is complete; if that fails,
    /// the put becomes a rejected request.
    pub fn feed(&mut self, alloc: Global, piece: &[u8]) -> (usize, Option<Request>)
        ensures within { result.0 ≤ length piece.now }
        ensures progress { IfSome result.1 (λ _. 0 < result.0) }
        // If there is no request: for every text that the reader represented, no first part of that
        // text and the piece is a request, the whole piece was taken, and the reader now represents
        // that text and the piece.
        ensures waits { result.1 ≡ None → (text : List ℕ)
            → Stands self.old text → Waits self.new text piece.now result.0 }
        // If there is a request: for every text that the reader represented, that text and the
        // bytes taken are this one request, and the reader now represents the empty text, or none
        // after a quit.
        ensures hands_out { IfSome result.1
            (λ request. (text : List ℕ) → Stands self.old text → HandsRequest self.new text piece.now result.0 request) }
        // So from all bytes taken since it was made or restarted, the reader returns the requests,
        // whatever pieces the bytes came in.
        ensures reads { ReadsOn self.old self.new piece.now result.0 result.1 }
        ensures over { IsOver self.old
            → (result.0 ≡ 0) × (result.1 ≡ None) × (self.new ≡ self.old) }
        ensures limit { self.new.max_job_size ≡ self.old.max_job_size }
    {
        let mut place = Request::Quit;
        let taken = self.take(alloc, piece, &mut place);
        (taken.count, request_in(taken, place))
    }
}

// The request in `place`, if there is one.
fn request_in(taken: Taken, place: Request) -> Option<Request>
    ensures { result ≡ request_in taken place }
{
    if taken.is_request {
        return Some(place);
    }
    drop(place);
    None
}
