//! The machine's calls that return an action as a value. For all events but the first one of a
//! connection, a server calls the method of the event instead, which copies no request and no answer.
use crate::machine::{Action, Event, SeatMachine};
use crate::next_action::NextAction;
use std::alloc::Global;

impl SeatMachine {
    ghost use Rattle.bq_seat.specs.SeatMoves.{FitsPiece, IsMove};

    /// A connection was opened. Returns the next action, in a place of its own.
    pub fn open(&mut self) -> NextAction
        ensures { IsMove self.old Event.Opened result self.new }
    {
        let mut next = NextAction::new();
        self.opened(&mut next);
        next
    }

    /// Returns the next action after this event. It allocates only the body of a put.
    ///
    /// An event that does not answer the last action changes nothing, and the result is `Stray`. A
    /// piece of bytes is at most 4,096 long.
    pub fn on(&mut self, alloc: Global, event: Event<'_>) -> Action
        requires { FitsPiece event }
        // The event is stray if and only if it does not answer the last action, and then nothing
        // changes. Otherwise every past that the machine represents continues with this event and
        // this action, justifies the action, and determines what the machine does next; a
        // connection that has ended was served.
        ensures { IsMove self.old event.entry result self.new }
    {
        let mut next = NextAction::new();
        self.hear(alloc, event, &mut next);
        next.into_action()
    }

    // Writes the next action after this event to `next`.
    fn hear(&mut self, alloc: Global, event: Event<'_>, next: &mut NextAction)
        requires { FitsPiece event }
        ensures { IsMove self.old event.entry next.new self.new }
    {
        match event {
            Event::Opened => self.opened(next),
            Event::Submitted => self.submitted(alloc, next),
            Event::Bytes(bytes) => self.bytes(alloc, bytes, next),
            Event::NothingYet => self.nothing_yet(next),
            Event::EndOfInput => self.end_of_input(next),
            Event::ReadFault => self.read_fault(next),
            Event::Mail(answer) => {
                next.write(answer);
                self.mail(next);
            }
            Event::WriteDone => self.write_done(alloc, next),
            Event::WriteFault => self.write_fault(next),
        }
    }
}
