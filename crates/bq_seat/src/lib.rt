//! What a connection does next: a state machine that receives events of a client's connection and
//! answers with actions. It reads requests from the connection's bytes, submits the connection's
//! steps, and returns their answers for writing. It does no input or output itself.
#![tactic(auto)]

pub use bq_job::LineEnd;
pub use byte_buffer::ByteBuffer;
pub use laws::pasts_are_orderly;
pub use machine::{Action, Event, PIECE_ROOM, SeatMachine};
pub use next_action::{Does, NextAction};

mod by_value;
mod byte_buffer;
mod laws;
mod machine;
mod next_action;
