//! The settings of the runs.
ghost use Rattle.std.specs.Prelude.{◌≡◌};

use bq_core_api::Config;

/// Returns a configuration with this many seats, this limit of body sizes, and the usual other
/// settings.
pub fn config(seats: u16, max_job_size: u32) -> Config
    ensures { result.seats ≡ seats }
{
    Config {
        seats,
        max_job_size,
        max_jobs: None,
        requeue_delay: 0,
    }
}
