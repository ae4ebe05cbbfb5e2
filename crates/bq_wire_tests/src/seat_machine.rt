//! What a seat machine does with whole connections, event by event. Between any two events it also
//! gets every event that does not answer its last action. Each of these is stray and changes
//! nothing.

ghost use Rattle.std.specs.Prelude.{IfSome};
ghost use Rattle.bq_seat.specs.SeatMoves.{FitsPiece};

use crate::pieces::push_text;
use bq_job::{Answer, LineEnd, Request, Step};
use bq_seat::{Action, Does, Event, NextAction, PIECE_ROOM, SeatMachine};
use std::alloc::Global;

// All events, as the tables write them. Bytes follow the word; in them `~` is CR LF, `^` CR and `%`
// LF.
const ALL_EVENTS: &str = "opened\n\
    submitted\n\
    bytes delete 1~\n\
    nothing yet\n\
    end of input\n\
    read fault\n\
    not found\n\
    closed\n\
    write done\n\
    write fault";

// Returns the event of a row; `bytes` are its bytes.
fn event_of<'b>(event: &str, bytes: &'b [u8]) -> Option<Event<'b>>
    ensures { IfSome result (λ event. FitsPiece event) }
{
    match event {
        "opened" => Some(Event::Opened),
        "submitted" => Some(Event::Submitted),
        "nothing yet" => Some(Event::NothingYet),
        "end of input" => Some(Event::EndOfInput),
        "read fault" => Some(Event::ReadFault),
        "not found" => Some(Event::Mail(Answer::NotFound)),
        "closed" => Some(Event::Mail(Answer::Closed)),
        "write done" => Some(Event::WriteDone),
        "write fault" => Some(Event::WriteFault),
        _ if bytes.len() <= PIECE_ROOM && !bytes.is_empty() => Some(Event::Bytes(bytes)),
        _ => None,
    }
}

// A word for each kind of action.
fn name_of(action: &Action) -> &'static str {
    match action {
        Action::Submit(Step::Connect) => "connect",
        Action::Submit(Step::Ask(Request::Put { .. })) => "put",
        Action::Submit(Step::Ask(Request::Reserve)) => "reserve",
        Action::Submit(Step::Ask(Request::Delete { .. })) => "delete",
        Action::Submit(Step::Ask(Request::Quit)) => "quit",
        Action::Submit(Step::Ask(Request::Refused(..))) => "refused",
        Action::Submit(Step::Ask(_)) => "other request",
        Action::Submit(Step::End) => "end",
        Action::Submit(Step::Close) => "close",
        Action::Submit(_) => "other step",
        Action::Read => "read",
        Action::PollMail => "poll",
        Action::Write(_) => "write",
        Action::LineOver(LineEnd::Quit) => "over by quit",
        Action::LineOver(LineEnd::EndOfInput) => "over by end of input",
        Action::LineOver(LineEnd::ReadFault) => "over by read fault",
        Action::LineOver(LineEnd::WriteFault) => "over by write fault",
        Action::Stray => "stray",
    }
}

// Returns the events that answer an action with this name, separated by `|`.
fn answers_to(last: &str) -> &'static str {
    match last {
        "read" => "bytes delete 1~|nothing yet|end of input|read fault",
        "poll" => "nothing yet|not found|closed",
        "write" => "write done|write fault",
        over if over.starts_with("over") => "opened",
        _ => "submitted",
    }
}

// Returns true if this event of `ALL_EVENTS` answers an action with this name.
fn answers(event: &str, last: &str) -> bool {
    for answer in answers_to(last).split('|') {
        if answer == event {
            return true;
        }
    }
    false
}

// Returns the name of the action that answers the event of a row, whose bytes are these.
fn named(alloc: Global, machine: &mut SeatMachine, event: &str, bytes: &[u8]) -> &'static str {
    match event_of(event, bytes) {
        Some(event) => {
            let action = machine.on(alloc, event);
            let name = name_of(&action);
            drop(action);
            name
        }
        None => "no event",
    }
}

// Does the same for an event with its bytes.
fn told(alloc: Global, machine: &mut SeatMachine, event: &str) -> &'static str {
    let mut bytes = Vec::new(alloc);
    if push_text(&mut bytes, event.strip_prefix("bytes ").unwrap_or("")) {
        named(alloc, machine, event, bytes.as_slice())
    } else {
        "no memory"
    }
}

// Passes the machine each event that does not answer an action with this name. Returns true if all
// are stray.
fn are_stray(alloc: Global, machine: &mut SeatMachine, last: &str) -> bool {
    for event in ALL_EVENTS.split('\n') {
        if !answers(event, last) && told(alloc, machine, event) != "stray" {
            return false;
        }
    }
    true
}

// Passes the machine the event of a row, after all that are stray. Returns the name of the action
// that answers it, if it is the one of the row.
fn play_row(
    alloc: Global,
    machine: &mut SeatMachine,
    last: &str,
    row: &str,
) -> Option<&'static str> {
    if !are_stray(alloc, machine, last) {
        return None;
    }
    let Some((event, wanted)) = row.split_once('|') else {
        return None;
    };
    let next = told(alloc, machine, event);
    if next == wanted { Some(next) } else { None }
}

// Connections one after another. Each row has an event, and the action that answers it.
fn play_at(alloc: Global, machine: &mut SeatMachine, session: &str) -> bool {
    let mut last = "over";
    for row in session.split('\n') {
        match play_row(alloc, machine, last, row) {
            Some(next) => last = next,
            None => return false,
        }
    }
    true
}

fn play(alloc: Global, session: &str) -> bool {
    match SeatMachine::new(alloc, 65535) {
        Ok(mut machine) => play_at(alloc, &mut machine, session),
        Err(_) => false,
    }
}

// A connection with commands after a wait, and then one that comes in pieces, with a quit inside a
// body first.
const WAITS: &str = "opened|connect\n\
    submitted|read\n\
    nothing yet|read\n\
    bytes put 0 0 1 1^|read\n\
    bytes %a~reserve~|put\n\
    submitted|poll\n\
    nothing yet|poll\n\
    not found|write\n\
    write done|reserve\n\
    submitted|poll\n\
    nothing yet|read\n\
    nothing yet|poll\n\
    nothing yet|read\n\
    bytes delete 1~quit~reserve~|poll\n\
    nothing yet|poll\n\
    not found|write\n\
    write done|delete\n\
    submitted|poll\n\
    not found|write\n\
    write done|quit\n\
    submitted|close\n\
    submitted|poll\n\
    nothing yet|poll\n\
    not found|poll\n\
    closed|over by quit\n\
    opened|connect\n\
    submitted|read\n\
    bytes put 0 0 9 6~quit~|read\n\
    bytes ~quit~|put\n\
    submitted|poll\n\
    not found|write\n\
    write done|quit\n\
    submitted|close";

// Ends of input: during a wait the end is submitted, and the connection is closed after the answer.
const ENDS: &str = "opened|connect\n\
    submitted|read\n\
    bytes reserve~|reserve\n\
    submitted|poll\n\
    nothing yet|read\n\
    end of input|end\n\
    submitted|poll\n\
    nothing yet|poll\n\
    not found|write\n\
    write done|close\n\
    submitted|poll\n\
    closed|over by end of input\n\
    opened|connect\n\
    submitted|read\n\
    end of input|close\n\
    submitted|poll\n\
    closed|over by end of input\n\
    opened|connect";

// Faults: the connection is closed after one, and the next connection starts anew.
const FAULTS: &str = "opened|connect\n\
    submitted|read\n\
    bytes reserve~|reserve\n\
    submitted|poll\n\
    nothing yet|read\n\
    read fault|close\n\
    submitted|poll\n\
    not found|poll\n\
    closed|over by read fault\n\
    opened|connect\n\
    submitted|read\n\
    bytes delete 7~delete 8~|delete\n\
    submitted|poll\n\
    not found|write\n\
    write fault|close\n\
    submitted|poll\n\
    nothing yet|poll\n\
    closed|over by write fault\n\
    opened|connect\n\
    submitted|read\n\
    bytes PUT~|refused\n\
    submitted|poll\n\
    nothing yet|poll";

#[test]
fn whole_lines(rt: HostRuntime) {
    let alloc = rt.alloc();
    assert!(rt; play(alloc, WAITS) && play(alloc, ENDS) && play(alloc, FAULTS));
}

// Passes a machine the events of a delete in place. Returns true if each next action has what it
// should carry.
fn deletes_in_place(alloc: Global, machine: &mut SeatMachine) -> bool {
    let mut next = machine.open();
    let connects = matches!(next.does(), Does::Submit);
    machine.submitted(alloc, &mut next);
    let reads = next.is_read();
    machine.bytes(alloc, b"delete 7\r\n", &mut next);
    let answered = takes_answer(alloc, machine, &mut next);
    drop(next);
    connects && reads && answered
}

// Passes a machine that submits a delete its answer.
fn takes_answer(alloc: Global, machine: &mut SeatMachine, next: &mut NextAction) -> bool {
    let asks = matches!(next.does(), Does::Submit) && machine.is_asking();
    machine.submitted(alloc, next);
    let polls = matches!(next.does(), Does::PollMail);
    next.write(Answer::Deleted);
    machine.mail(next);
    let writes = matches!(next.does(), Does::Write) && matches!(next.answer(), Answer::Deleted);
    machine.write_done(alloc, next);
    asks && polls && writes && next.is_read()
}

#[test]
fn actions_in_place(rt: HostRuntime) {
    let alloc = rt.alloc();
    let Ok(mut machine) = SeatMachine::new(alloc, 65535) else {
        assert!(rt; false);
        return;
    };
    assert!(rt; deletes_in_place(alloc, &mut machine));
}
