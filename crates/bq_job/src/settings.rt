/// What is chosen when a server starts.
#[derive(Clone, Copy)]
pub struct Settings {
    /// How many clients can be connected at the same time, 1 to 256.
    pub seats: u16,
    /// The largest job body, in bytes, 1 to 1,048,576.
    pub max_job_size: u32,
    /// The largest number of jobs, in whatever states, at least 1; `None` for no limit.
    pub max_jobs: Option<u32>,
    /// After how many seconds a job becomes ready again if its holder disconnects; 0 for at once.
    pub requeue_delay: u32,
}
