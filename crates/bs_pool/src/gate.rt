//! What a worker passes before each job.

/// Is told what the workers do, and may hold them.
pub trait Gate: Sync {
    /// A worker is about to do a job. It goes on when this returns.
    fn reach(&self, worker: usize, job: usize);

    /// All jobs have run. `found` is how many values were found again, where somebody counts them.
    fn ended(&self, found: u64);
}

/// The gate that holds nobody.
pub struct OpenGate;

impl Gate for OpenGate {
    fn reach(&self, _worker: usize, _job: usize) {}

    fn ended(&self, _found: u64) {}
}
