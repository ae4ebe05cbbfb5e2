//! A door where one client connects.
ghost use Rattle.std.specs.Prelude.{◌≡◌, None, [], false, map, true};
ghost use Rattle.std.specs.Option.{ForSome, option_to_list};
ghost use Rattle.bq_line.specs.LineCalls.{new_line};

use super::guest::Guest;
use bq_job::LineEnd;
use bq_line::line::{IoLine, Line};
use bq_line::{Door, DoorFault, Opening, Watcher};

/// A door where one client connects, and no other.
#[derive(Drop)]
pub struct GuestDoor<'m> {
    seat: u16,
    coming: Option<IoLine<Guest<'m>>>,
    over: Option<(IoLine<Guest<'m>>, LineEnd)>,
    is_out: bool,
    is_at_end: bool,
    ghost fresh: { ForSome coming (λ line. ⟦<IoLine<Guest<'static>> as Line>⟧.seen line ≡ new_line) },
    ghost first: { ForSome coming (λ line. over ≡ None) },
    ghost none_out: { ForSome coming (λ line. is_out ≡ false) },
    ghost out: { is_out ≡ true → over ≡ None },
}

impl<'m> GuestDoor<'m> {
    /// Returns the door of this seat.
    pub fn new(seat: u16, guest: Guest<'m>) -> GuestDoor<'m>
        ensures inside { ⟦<GuestDoor<'m> as Door>⟧.is_out result ≡ false }
        ensures more { ⟦<GuestDoor<'m> as Door>⟧.is_at_end result ≡ false }
        ensures none_over { ⟦<GuestDoor<'m> as Door>⟧.lines_over result ≡ [] }
    {
        GuestDoor {
            seat,
            coming: Some(IoLine::new(guest)),
            over: None,
            is_out: false,
            is_at_end: false,
        }
    }

    /// Returns true if the client has received an answer, the last one or another, and its
    /// connection has ended.
    pub fn is_served(self, is_last: bool) -> bool {
        let GuestDoor {
            seat: _,
            coming,
            over,
            is_out: _,
            is_at_end: _,
        } = self;
        drop(coming);
        match over {
            Some((line, end)) => {
                let guest = line.into_stream();
                let is_answered = guest.is_answered(is_last);
                drop(guest);
                is_answered && end == LineEnd::EndOfInput
            }
            None => false,
        }
    }
}

impl<'m> Door for GuestDoor<'m> {
    ghost use Rattle.std.proofs.Common.{refl};

    type Line = IoLine<Guest<'m>>;

    ghost is_out = { λ d. d.is_out };

    ghost is_at_end = { λ d. d.is_at_end };

    ghost lines_over = { λ d. map (λ o. record { seen = ⟦<IoLine<Guest<'m>> as Line>⟧.seen o.0; over = o.1 }) (option_to_list d.over) };

    ghost same = { λ first last. last.seat ≡ first.seat };

    // The stream of its client may fail.
    ghost may_fail = { λ d. true };

    ghost same_self = { λ d. refl };

    ghost same_streams = { λ first last same. refl };

    fn open(&mut self) -> Result<Option<IoLine<Guest<'m>>>, DoorFault> {
        match self.coming.take() {
            Some(line) => {
                self.is_out = true;
                Ok(Some(line))
            }
            None => {
                self.is_at_end = true;
                Ok(None)
            }
        }
    }

    fn try_open<W: Watcher>(
        &mut self,
        _may_have_come: bool,
        _watcher: &W,
    ) -> Result<Opening<IoLine<Guest<'m>>>, DoorFault> {
        match self.coming.take() {
            Some(line) => {
                self.is_out = true;
                Ok(Opening::Line(line))
            }
            None => {
                self.is_at_end = true;
                Ok(Opening::NoMore)
            }
        }
    }

    fn shut(&mut self, line: IoLine<Guest<'m>>, end: LineEnd) {
        self.is_out = false;
        self.over = Some((line, end));
    }
}
