//! How a worker comes to its next job.
ghost use Rattle.std.specs.Prelude.{◌≡◌, ℕ, ◌+◌, ◌<◌, [], ◌∷◌, ◌++◌, MatchOption, vec_len};
ghost use Rattle.std.specs.Option.{option_to_list};
ghost use Rattle.bs_pool.specs.Hands.{times, Spent};
ghost use Rattle.bs_pool.specs.Seats.{own, crew_of, carried};
ghost use Rattle.bs_pool.specs.Moves.{Took};

use crate::hand::Takes;
use crate::seat::Seat;
use crate::thief::Thief;
use std::sync::Wait;

impl Seat {
    /// A job of its own, or else one of another worker's. None once all were seen to have none.
    pub fn next_job<R: Wait>(&mut self, rt: &R) -> Option<usize>
        ensures { MatchOption result (Took [] self.old self.new × Spent (own self.new)) (λ job. Took (job ∷ []) self.old self.new) }
    {
        match self.own_job() {
            Some(job) => Some(job),
            None => self.other_job(rt),
        }
    }

    // The oldest job of its own.
    fn own_job(&mut self) -> Option<usize>
        ensures { MatchOption result (Took [] self.old self.new × Spent (own self.new)) (λ job. Took (job ∷ []) self.old self.new) }
    {
        self.deque.pop_as::<Takes>()
    }

    // A job of another worker. It begins with the next one.
    fn other_job<R: Wait>(&mut self, rt: &R) -> Option<usize>
        ensures took { Took (option_to_list result) self.old self.new }
        ensures own { own self.new ≡ own self.old }
    {
        let workers = self.thieves.len();
        for step in 0..workers {
            let victim = (self.worker % workers + 1 + step) % workers;
            if let Some(job) = steal_at(rt, &mut self.thieves, victim) {
                return Some(job);
            }
        }
        None
    }
}

// A job of the worker `victim`.
fn steal_at<R: Wait>(rt: &R, thieves: &mut Vec<Thief>, victim: usize) -> Option<usize>
    requires { victim < vec_len thieves.old }
    ensures long { vec_len thieves.new ≡ vec_len thieves.old }
    ensures crew { crew_of thieves.new.items ≡ crew_of thieves.old.items }
    ensures carried { (x : ℕ) → carried x thieves.new.items ≡ carried x thieves.old.items + times x (option_to_list result) }
{
    thieves[victim].steal(rt)
}
