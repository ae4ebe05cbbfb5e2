//! What a run over doors in memory works on, besides its settings.

use crate::cases::Case;
use crate::doors::{NewDoors, doors};
use bq_job::NoMemory;
use bq_line::clock::ScriptClock;
use bq_scenes::clients::clock;
use bq_scenes::control::{Control, control};
use std::alloc::Global;
use std::sync::atomic::AtomicU64;

/// The doors, the clock and the control line of a run.
#[derive(Drop)]
pub struct Scene<'c> {
    pub doors: NewDoors<'c>,
    pub clock: ScriptClock,
    pub control: Control,
}

impl<'c> Scene<'c> {
    /// Returns the doors of a run, which count there how often they are opened, a clock that always
    /// reads the same, and the run's control line.
    pub fn new(alloc: Global, case: &Case, opened: &'c AtomicU64) -> Result<Scene<'c>, NoMemory> {
        let Ok(control) = control(alloc, case.gives) else {
            return Err(NoMemory);
        };
        let Ok(clock) = clock(alloc, "0") else {
            drop(control);
            return Err(NoMemory);
        };
        match doors(alloc, case, opened) {
            Ok(doors) => Ok(Scene {
                doors,
                clock,
                control,
            }),
            Err(_) => {
                drop(clock);
                drop(control);
                Err(NoMemory)
            }
        }
    }
}
