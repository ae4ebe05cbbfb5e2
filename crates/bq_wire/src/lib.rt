//! The texts of the protocol: parses bytes into requests, and formats answers as bytes.
#![tactic(auto)]

pub use head_buf::HeadBuf;
pub use reader::{RequestReader, Taken, requests_of, what_was_read_is_a_reading};
pub use texts::{answer_body, answer_head, answer_tail};

mod by_value;
mod command;
mod frequent;
mod head_buf;
mod line_read;
mod put_body;
mod reader;
mod texts;
