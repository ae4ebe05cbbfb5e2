//! The seats of a run.
ghost use Rattle.std.specs.Prelude.{◌≡◌, IfOk, IsTrue, vec_len};
ghost use Rattle.std.specs.List.{All};
ghost use Rattle.bq_core_api.specs.Limits.{is_body_size};
ghost use Rattle.bq_line.specs.Tending.{IsNewSeat};

use bq_job::NoMemory;
use bq_line::attendant::Attendant;
use bq_line::line::Line;
use std::alloc::Global;

/// Returns new seats. All memory but that for bodies is allocated here.
pub fn new_seats<L: Line + Drop>(
    alloc: Global,
    seats: u16,
    max_job_size: u32,
) -> Result<Vec<Attendant<L>, Global>, NoMemory>
    requires { IsTrue (is_body_size max_job_size) }
    ensures many { IfOk result (λ all. vec_len all ≡ seats) }
    ensures new { IfOk result (λ all. All (IsNewSeat max_job_size) all.items) }
{
    let Ok(mut all) = Vec::with_capacity(alloc, usize::from(seats)) else {
        return Err(NoMemory);
    };
    for _ in 0..seats {
        let Ok(seat) = Attendant::new(alloc, max_job_size) else {
            return Err(NoMemory);
        };
        all.push_reserved(seat);
    }
    Ok(all)
}
