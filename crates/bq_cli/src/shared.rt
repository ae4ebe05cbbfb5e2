//! What the threads of a program share.

use crate::ending::Ending;
use crate::log::{Log, Writer};
use bq_job::NoMemory;
use bq_program::LogForm;
use std::alloc::Global;
use std::sync::Arc;

/// What the thread that starts a server, the one that serves and the one that writes the log share. For an event loop they
/// are one.
#[derive(Drop)]
pub struct Shared {
    pub log: Log,
    pub ending: Ending,
}

impl Shared {
    /// Makes what the threads of a server with this number of doors share. Its reports have this form.
    pub fn new(
        alloc: Global,
        doors: u16,
        form: LogForm,
        by: Writer,
    ) -> Result<Arc<Shared, Global>, NoMemory> {
        let Ok(log) = Log::new(alloc, form, by) else {
            return Err(NoMemory);
        };
        let ending = Ending::new(doors, form);
        match Arc::new(alloc, Shared { log, ending }) {
            Ok(shared) => Ok(shared),
            Err(_) => Err(NoMemory),
        }
    }
}
