//! The control line: after `drain`, no put is accepted.

use crate::control::Gives;
use bq_job::{Body, NoMemory, Request, Step};
use std::alloc::Global;

/// The results of the reads of a control line, and whether a put is rejected afterwards.
pub type Example = (&'static [Gives], bool);

// Control lines with and without a line `drain`.
static EXAMPLES: &[Example] = &[
    (&[Gives::Text("drain\ndrains\ndrain")], true),
    (&[Gives::Text("drains\n\ndrain ")], false),
    // A longer line that arrives in two reads, and a last line that arrives in pieces.
    (
        &[
            Gives::Text("no dra"),
            Gives::NothingYet,
            Gives::Text("in for now\ndr"),
            Gives::NothingYet,
            Gives::NothingYet,
            Gives::Text("ain"),
        ],
        true,
    ),
    (
        &[Gives::Text("a longer line"), Gives::Text("\ndrain\n")],
        true,
    ),
    (
        &[Gives::NothingYet, Gives::Text("x"), Gives::Text("drain\n")],
        false,
    ),
    // An unfinished line has no effect if the reader fails; a finished line has.
    (&[Gives::Text("drain"), Gives::Fault], false),
    (&[Gives::Text("drain\nd"), Gives::Fault], true),
];

/// Returns these control lines. Each function that names the table takes seconds to prove.
pub fn examples() -> &'static [Example] {
    EXAMPLES
}

/// Returns a put as a client's step.
pub fn put(alloc: Global) -> Result<Step, NoMemory> {
    match Body::new(alloc, b"x") {
        Ok(body) => Ok(Step::Ask(Request::Put {
            pri: 0,
            delay: 0,
            ttr: 1,
            body,
        })),
        Err(_) => Err(NoMemory),
    }
}
