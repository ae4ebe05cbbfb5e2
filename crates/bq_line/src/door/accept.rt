//! Accepts the next connection of a listener.
ghost use Rattle.std.specs.Prelude.{◌≡◌, ◌⊎◌, Err, IfErr, IfOk, true};
ghost use Rattle.bq_line.specs.Accepts.{ends_listener, is_listener_fault, most_failures};
ghost use Rattle.bq_line.specs.Watched.{IsWatched};

use super::failures::Failures;
use super::refusals::Refusals;
use super::{Listen, TurnedAway};
use crate::line::{Connection, NotWatched, Watcher};
use std::io::{Eprint, ErrorKind};
use std::rt::Clock;
use std::time::Duration;
use std::{io, thread};

/// How long a door waits before it tries again to accept a connection, in milliseconds.
const REST: u64 = 100;

/// The Linux error numbers that mean that the listener itself is broken: EBADF, EFAULT, EINVAL and
/// ENOTSOCK.
const LISTENER_FAULTS: [i32; 4] = [9, 14, 22, 88];

/// How many peers that have disconnected already one call that does not wait skips.
const PEERS: u32 = 64;

/// Why no connection was accepted.
#[derive(Clone, Copy, PartialEq, Eq)]
pub(super) enum NotAccepted {
    /// The listener does not wait, and no client has connected yet.
    NoneYet,
    /// The peer had closed its connection, or a signal arrived. The next connection can be accepted
    /// at once.
    OfPeer,
    /// The system lacks memory or descriptors, the network failed, or a firewall rejected the
    /// connection. Linux also returns pending network errors of the new socket here. None of these
    /// concerns the listener.
    Passing,
    /// The listener is broken.
    OfListener,
}

/// Returns the next connection, set to send each write at once.
///
/// A peer that has already disconnected is skipped. After any other error that does not come from
/// the listener itself, the door waits and tries again, so no single error of this kind ends a door.
/// It is reported once, and so is a broken listener.
///
/// On error it returns how many accepts in a row have failed: 2^64 - 1, unless the listener is
/// broken (`Failures`). Because this number ends the loop, a door needs no `Wait`.
pub(super) fn accept<R: Clock + Eprint, T: Listen>(
    rt: &R,
    listener: &T,
    refusals: Option<&Refusals>,
) -> Result<Connection<T::Stream>, Failures>
    ensures fault { IfErr result (λ failures. (T.may_fail listener.now ≡ true) ⊎ (failures ≡ most_failures)) }
    ensures stream { IfOk result (λ c. T.Stream.may_fail c.stream ≡ T.streams_may_fail listener.now) }
{
    let mut is_met = false;
    let mut failures = Failures::none();
    for _ in 0..u64::MAX {
        match failures.accept(listener) {
            Ok(Some(stream)) => {
                note_accepted(refusals, &mut is_met);
                return Ok(Connection::new(stream));
            }
            Ok(None) => {}
            Err(e) => match meaning_of(&e) {
                NotAccepted::OfPeer => {}
                NotAccepted::NoneYet | NotAccepted::Passing => {
                    note_refusal(rt, refusals, &mut is_met, &e);
                    thread::sleep(rt, Duration::from_millis(REST));
                }
                NotAccepted::OfListener => {
                    note_refusal(rt, refusals, &mut is_met, &e);
                    return Err(failures);
                }
            },
        }
    }
    Err(failures)
}

/// Accepts the next connection of a listener that was set not to wait, and has it watched. `is_met`
/// is true if an error occurred since the last connection was accepted; such an error is reported
/// once, and so are many clients in a row that had disconnected.
pub(super) fn accept_now<R: Eprint, T: Listen, W: Watcher>(
    rt: &R,
    listener: &T,
    refusals: Option<&Refusals>,
    is_met: &mut bool,
    watcher: &W,
) -> Result<Connection<T::Stream>, NotAccepted>
    ensures fault { result ≡ Err NotAccepted.OfListener → T.may_fail listener.now ≡ true }
    ensures stream { IfOk result (λ c. T.Stream.may_fail c.stream ≡ T.streams_may_fail listener.now) }
    ensures watched { IfOk result (λ c. IsWatched T.Stream.Socket c.ready c.stream) }
    // A connection that the system refuses to watch is not opened.
    ensures registered { IfOk result (λ c. W.watches watcher.now (T.Stream.descriptor c.stream) ≡ true) }
{
    for _ in 0..PEERS {
        match try_accept(rt, listener, refusals, is_met, watcher) {
            Err(NotAccepted::OfPeer) => {}
            came => return came,
        }
    }
    let gone = io::Error::from(ErrorKind::ConnectionAborted);
    note_refusal(rt, refusals, is_met, &gone);
    Err(NotAccepted::Passing)
}

// Makes one accept.
fn try_accept<R: Eprint, T: Listen, W: Watcher>(
    rt: &R,
    listener: &T,
    refusals: Option<&Refusals>,
    is_met: &mut bool,
    watcher: &W,
) -> Result<Connection<T::Stream>, NotAccepted>
    ensures fault { result ≡ Err NotAccepted.OfListener → T.may_fail listener.now ≡ true }
    ensures stream { IfOk result (λ c. T.Stream.may_fail c.stream ≡ T.streams_may_fail listener.now) }
    ensures watched { IfOk result (λ c. IsWatched T.Stream.Socket c.ready c.stream) }
    ensures registered { IfOk result (λ c. W.watches watcher.now (T.Stream.descriptor c.stream) ≡ true) }
{
    match listener.accept() {
        Ok((stream, _peer)) => match Connection::watched(stream, watcher) {
            Ok(connection) => {
                note_accepted(refusals, is_met);
                Ok(connection)
            }
            Err(NotWatched::HasGone) => Err(NotAccepted::OfPeer),
            // It is closed: it would never be read.
            Err(NotWatched::Refused(e)) => {
                note_refusal(rt, refusals, is_met, &e);
                Err(NotAccepted::Passing)
            }
        },
        Err(e) => Err(refused_for(rt, refusals, is_met, &e)),
    }
}

// Returns what an error of accept means. It is reported unless it concerns a single client, or means
// that none has connected.
fn refused_for<R: Eprint>(
    rt: &R,
    refusals: Option<&Refusals>,
    is_met: &mut bool,
    e: &io::Error,
) -> NotAccepted
    ensures { result ≡ NotAccepted.OfListener → ends_listener e.now ≡ true }
{
    let meaning = meaning_of(e);
    if matches!(meaning, NotAccepted::Passing | NotAccepted::OfListener) {
        note_refusal(rt, refusals, is_met, e);
    }
    meaning
}

// Records that a connection could not be accepted. This is reported only the first time since the
// door accepted a connection; `is_met` says whether it happened already.
fn note_refusal<R: Eprint>(rt: &R, refusals: Option<&Refusals>, is_met: &mut bool, e: &io::Error) {
    if *is_met {
        return;
    }
    *is_met = true;
    if let Some(refusals) = refusals {
        refusals.meet(rt, e);
    }
}

// Records that a connection was accepted.
fn note_accepted(refusals: Option<&Refusals>, is_met: &mut bool) {
    if !*is_met {
        return;
    }
    *is_met = false;
    if let Some(refusals) = refusals {
        refusals.pass();
    }
}

/// Accepts the next connection of a listener that was set not to wait, and closes it. Clients that
/// have disconnected already are skipped.
pub(super) fn close_next<T: Listen>(listener: &T) -> TurnedAway {
    for _ in 0..PEERS {
        match listener.accept() {
            Ok(_closed) => return TurnedAway::Closed,
            Err(e) => match meaning_of(&e) {
                NotAccepted::OfPeer => {}
                NotAccepted::NoneYet => return TurnedAway::NoneThere,
                NotAccepted::Passing | NotAccepted::OfListener => return TurnedAway::Later,
            },
        }
    }
    TurnedAway::Later
}

// Returns what an error of accept means.
fn meaning_of(e: &io::Error) -> NotAccepted
    ensures { result ≡ NotAccepted.OfListener → ends_listener e.now ≡ true }
{
    let kind = e.kind();
    if kind == ErrorKind::WouldBlock {
        NotAccepted::NoneYet
    } else if is_of_peer(kind) {
        NotAccepted::OfPeer
    } else if is_listener_fault(e.raw_os_error()) {
        NotAccepted::OfListener
    } else {
        NotAccepted::Passing
    }
}

fn is_of_peer(kind: ErrorKind) -> bool {
    match kind {
        ErrorKind::Interrupted | ErrorKind::ConnectionAborted => true,
        _ => false,
    }
}

fn is_listener_fault(number: Option<i32>) -> bool
    ensures { result ≡ is_listener_fault number }
{
    match number {
        Some(number) => LISTENER_FAULTS.contains(&number),
        None => false,
    }
}
