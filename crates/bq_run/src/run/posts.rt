//! What the threads of a run begin with, and what they return.
ghost use Rattle.std.specs.Prelude.{◌≡◌, ◌<◌, vec_capacity, vec_len};
ghost use Rattle.std.specs.List.{All};

use crate::run::control_post::ControlPost;
use crate::run::core_post::CorePost;
use crate::run::seat_post::SeatPost;
use bq_core_api::QueueCore;
use bq_line::Door;
use bq_line::control_line::ControlLine;
use bq_link::{CoreEnd, SeatEnd};
use std::alloc::Global;

/// The posts of a run. Those of the seats have the limit of body sizes of its configuration.
#[derive(Drop)]
pub struct Posts<'a, D: Door, C, I, K: QueueCore> {
    pub seats: Vec<SeatPost<'a, D>, Global>,
    pub control: ControlPost<'a, I>,
    pub core: CorePost<'a, C, K>,
    ghost limits: { All (λ post. post.max_job_size ≡ core.new_core.config.max_job_size) seats.items },
}

/// What the threads of a run returned. The ends and the doors are in the order of their seats, and
/// there is room for one more end.
#[derive(Drop)]
pub struct Ended<D, C, I, K> {
    pub ends: Vec<SeatEnd, Global>,
    pub doors: Vec<D, Global>,
    pub control_end: SeatEnd,
    pub control: ControlLine<I>,
    pub core_end: CoreEnd,
    pub core: K,
    pub clock: C,
    ghost room: { vec_len ends < vec_capacity ends },
}
