//! Runs of one client that are rejected: they open no door.

use bq_host::RunFault;

/// The number of seats, the limit of body sizes, and the error.
pub type Refused = (u16, u32, Option<RunFault>);

static REFUSED: &[Refused] = &[
    (1, 1, None),
    (2, 1, Some(RunFault::BadConfiguration)),
    (0, 1, Some(RunFault::BadConfiguration)),
    (257, 1, Some(RunFault::BadConfiguration)),
    (1, 0, Some(RunFault::BadConfiguration)),
    (1, 1_048_577, Some(RunFault::BadConfiguration)),
];

/// Returns configurations in and out of their ranges. Each function that names the table takes
/// seconds to prove.
pub fn rows() -> &'static [Refused] {
    REFUSED
}

/// The one client, at the one door. The limit of body sizes is 1 if the run is not rejected.
pub static ONE: &str = "put 5 0 10 3~abc~ > JOB_TOO_BIG~";
