//! Which configurations a core accepts.
use bq_core::{Config, Core, CoreFault};
use bq_scenes::settings::config;
use std::alloc::Global;

// Returns the number of the fault for these settings, or 0 if a core was made.
fn code_of(alloc: Global, seats: u16, max_job_size: u32, max_jobs: Option<u32>) -> u16 {
    let chosen = Config {
        max_jobs,
        ..config(seats, max_job_size)
    };
    match Core::new(alloc, chosen) {
        Ok(_) => 0,
        Err(fault) => fault.code(),
    }
}

static CODES: &[(u16, u32, Option<u32>, u16)] = &[
    (0, 0, None, 302),
    (257, 1, None, 302),
    (1, 0, None, 303),
    (256, 1_048_577, None, 303),
    (256, 1_048_576, None, 0),
    (1, 1, Some(0), 304),
    (0, 1, Some(0), 302),
    (1, 0, Some(0), 303),
    (1, 1, Some(1), 0),
    (1, 1, Some(u32::MAX), 0),
];

fn are_codes(alloc: Global) -> bool {
    for (seats, max_job_size, max_jobs, code) in CODES {
        if code_of(alloc, *seats, *max_job_size, *max_jobs) != *code {
            return false;
        }
    }
    CoreFault::NoMemory.code() == 301
}

#[test]
fn refuses_configurations(rt: HostRuntime) {
    assert!(rt; are_codes(rt.alloc()));
}
