//! What the workers do.
ghost use Rattle.std.specs.Prelude.{◌≡◌, ℕ, List, IfOk};

use std::alloc::AllocError;
use std::sync::Wait;

/// Numbered jobs, each done with a local value that belongs to one worker.
pub trait Work: Sync {
    type Local: Send;

    // The bytes of the answer of each job.
    ghost answer: { Self → ℕ → List ℕ };

    // Which locals may do jobs.
    ghost good: { Self → Self.Local → Type 0 };

    // The number that a local keeps.
    ghost number: { Self → Self.Local → ℕ };

    /// Does one job. Want of memory is the only error, and leaves the local as good as before.
    fn run<R: Wait>(
        &self,
        rt: &R,
        local: &mut Self::Local,
        job: usize,
    ) -> Result<Vec<u8>, AllocError>
        requires good_local { good self.now local.old }
        ensures stays_good { good self.now local.new }
        ensures number_stays { number self.now local.new ≡ number self.now local.old }
        ensures answers_the_job { IfOk result (λ v. v.items ≡ answer self.now job) };
}
