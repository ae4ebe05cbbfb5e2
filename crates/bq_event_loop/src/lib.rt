//! A run of many doors by one thread, which owns the core. It waits for all connections at once,
//! and then does for each seat what can be done without waiting. A `Turns` chooses which seat acts
//! next and when; whatever it chooses, every answer is right.
#![tactic(auto)]

pub use doors::Doors;
pub use event_loop::run_event_loop;
pub use order::Order;
pub use row::Row;
pub use run::{EventLoopRun, RunRefused, run_turns};
pub use sleeper::{Report, Sleeper};
pub use turns::{
    Began, ControlReads, ControlStands, News, SoFar, Stands, Task, Turn, Turns, TurnsFault,
};
pub use watch::Watch;

mod control_watch;
mod doors;
mod event_loop;
mod order;
mod row;
mod run;
mod seat_queue;
mod serve;
mod sleeper;
mod still;
mod turns;
mod waiting;
mod watch;
