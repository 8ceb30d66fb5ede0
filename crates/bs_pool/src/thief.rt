//! One who takes jobs from a deque that is another's.
ghost use Rattle.std.specs.Prelude.{◌≡◌, ◌+◌, ◌-◌, ◌<◌, [], ◌∷◌, ◌++◌, MatchOption, IfOk, OnErr};
ghost use Rattle.crossbeam_deque.specs.Handles.{view, IsPassOf, stealer_deque, worker_deque, worker_view, worker_index, SameWorker};
ghost use Rattle.bs_pool.specs.Hands.{hand};

use crate::hand::{Hand, Owner, Part, Steals, Taker};
use crossbeam_deque::{Pass, Steal};
use std::alloc::AllocError;
use std::sync::Wait;

/// A stealer with its pass. The pass is of the stealer's deque, has one part of it, and put nothing.
#[derive(Drop)]
pub struct Thief {
    taker: Taker,
    pass: Pass<usize, Hand>,
    ghost of_deque: { IsPassOf (stealer_deque taker) pass },
    ghost share: { (view pass).parts ≡ 1 },
    ghost put: { (view pass).put ≡ [] },
}

/// A thief for a deque. It gets one part.
pub fn make_thief(deque: &mut Owner) -> Result<Thief, AllocError>
    requires { 1 < (worker_view deque.old).parts }
    ensures same { SameWorker deque.old deque.new }
    ensures unmade { OnErr result (worker_view deque.new ≡ worker_view deque.old) }
    ensures made { IfOk result (λ t. (stealer_deque t.taker ≡ worker_deque deque.old) × ((view t.pass).taken ≡ []) × (worker_view deque.new ≡ hand ((worker_view deque.old).parts - 1) (worker_view deque.old).put (worker_view deque.old).taken)) }
{
    let taker = deque.stealer()?;
    let pass = deque.another::<Part>();
    Ok(Thief { taker, pass })
}

impl Thief {
    /// A job of its deque, if one was there.
    pub fn steal<R: Wait>(&mut self, rt: &R) -> Option<usize>
        ensures deque { stealer_deque self.new.taker ≡ stealer_deque self.old.taker }
        ensures taken { MatchOption result ((view self.new.pass).taken ≡ (view self.old.pass).taken) (λ job. (view self.new.pass).taken ≡ (view self.old.pass).taken ++ job ∷ []) }
    {
        steal_with(rt, &self.taker, &mut self.pass)
    }

    /// Gives its part back to the owner, who then knows what it took.
    pub fn come_home(self, deque: &mut Owner)
        requires { stealer_deque self.taker ≡ worker_deque deque.old }
        ensures same { SameWorker deque.old deque.new }
        ensures view { worker_view deque.new ≡ hand ((worker_view deque.old).parts + 1) (worker_view deque.old).put ((worker_view deque.old).taken ++ (view self.pass).taken) }
    {
        let Thief { taker: _, pass } = self;
        deque.absorb::<Part>(pass);
    }
}

// Tries until no other thief comes between.
fn steal_with<R: Wait>(rt: &R, taker: &Taker, pass: &mut Pass<usize, Hand>) -> Option<usize>
    requires of_deque { IsPassOf (stealer_deque taker.now) pass.old }
    requires share { 0 < (view pass.old).parts }
    ensures of_deque { IsPassOf (stealer_deque taker.now) pass.new }
    ensures taken { MatchOption result (view pass.new ≡ view pass.old) (λ job. view pass.new ≡ hand (view pass.old).parts (view pass.old).put ((view pass.old).taken ++ job ∷ [])) }
{
    for _ in rt.forever() {
        match taker.steal_as::<Steals>(pass) {
            Steal::Success(job) => return Some(job),
            Steal::Empty => return None,
            Steal::Retry => {}
        }
    }
    unreachable!()
}
