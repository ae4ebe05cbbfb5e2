//! The vocabulary of the work queue: jobs, tubes, requests, steps and answers.
//!
//! All promises of this repository are stated in the definitions under `specs/`: the model with one
//! list of jobs, the reading of a text into requests, the texts of answers, and what a client's
//! connection is owed.
#![tactic(auto)]

pub use answer::Answer;
pub use body::{Body, BodyBuilder, NumberedBody};
pub use fault::NoMemory;
pub use job::{Counts, Job, JobState};
pub use journal::Entry;
pub use laws_of_clients::{
    asks_give_at_most, line_joins, one_line_more, others_give_what_waits, parts_join,
    steps_keep_settings, the_headline,
};
pub use laws_of_machine::{
    ample_steps_are_computed, computed_is_step, dispatched_is_least, new_machine_is_lawful,
    nothing_happens_before_it_is_due, refused_commands_change_nothing,
    steps_give_clients_their_answers, steps_give_few_answers, steps_have_one_result,
    steps_keep_lawful,
};
pub use laws_of_open_runs::{
    all_gone_is_final, idle_doors_are_owed, runs_begin_with_runs, what_was_written_stays_right,
};
pub use limits::{LARGEST_BODY, MOST_SEATS, USUAL_BODY};
pub use line_end::{LineEnd, LineFault};
pub use refusal::Refusal;
pub use request::Request;
pub use settings::Settings;
pub use step::Step;
pub use text::Text;
pub use tube_name::TubeName;

mod answer;
mod body;
mod bytes;
mod fault;
mod job;
mod journal;
mod laws_of_clients;
mod laws_of_machine;
mod laws_of_open_runs;
pub mod laws_of_reading;
pub mod laws_of_replays;
pub mod laws_of_runs;
pub mod laws_of_texts;
mod limits;
mod line_end;
mod refusal;
mod request;
mod settings;
mod step;
mod text;
mod tube_name;

/// A moment in milliseconds. The core's clock starts at 0.
pub type Moment = u64;

/// The number of a job. Jobs are numbered from 1 in the order in which their puts were accepted.
pub type JobId = u64;

/// The priority of a job: 0 is the most urgent, 4,294,967,295 the least.
pub type Pri = u32;

/// The number of a seat, from 0. A seat serves one connection at a time.
pub type Seat = u16;
