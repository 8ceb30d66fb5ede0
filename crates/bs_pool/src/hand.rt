//! The rule of a deque, and what its passes know: what was put is what was taken and what is left, each job as often.
use crossbeam_deque::protocol::{Join, Outcome, Protocol, Split};
use crossbeam_deque::{Stealer, Worker};
use std::alloc::Global;
use std::collections::LinkedList;

/// What a pass knows: its parts of the right to know the whole, and the jobs that it put and took. No value of it is made.
pub struct Hand {
    pub parts: u64,
    pub put: LinkedList<usize>,
    pub taken: LinkedList<usize>,
}

/// The rule of a deque. It begins with 1,024 parts, all with its owner.
pub struct Fair;

impl Protocol<usize, Hand> for Fair {
    ghost use Rattle.std.specs.Prelude.{[]};
    ghost use Rattle.bs_pool.specs.Hands.{hand, Balanced};

    ghost holds = { Balanced };

    ghost first = { hand 1024 [] [] };

    ghost guest = { hand 0 [] [] };
}

/// One part goes to a new pass, and comes home with what that pass knows.
pub struct Part;

impl Split<Hand> for Part {
    ghost use Rattle.std.specs.Prelude.{[], ◌-◌};
    ghost use Rattle.bs_pool.specs.Hands.{hand};

    ghost left = { λ v. hand (v.parts - 1) v.put v.taken };

    ghost right = { λ v. hand 1 [] [] };
}

impl Join<Hand> for Part {
    ghost use Rattle.std.specs.Prelude.{[], ◌+◌, ◌++◌};
    ghost use Rattle.bs_pool.specs.Hands.{hand};

    ghost both = { λ v w. hand (v.parts + w.parts) (v.put ++ w.put) (v.taken ++ w.taken) };

    ghost spent = { hand 0 [] [] };
}

/// A job is dealt.
pub struct Deals;

impl Outcome<usize, Hand> for Deals {
    ghost use Rattle.std.specs.Prelude.{◌≡◌, ◌++◌};
    ghost use Rattle.bs_pool.specs.Hands.{hand};

    ghost then = { λ v xs w. w ≡ hand v.parts (v.put ++ xs) v.taken };
}

/// The owner takes a job. Where it finds none, and has every part, all that was put was taken.
pub struct Takes;

impl Outcome<usize, Hand> for Takes {
    ghost use Rattle.std.specs.Prelude.{◌≡◌, ◌++◌};
    ghost use Rattle.bs_pool.specs.Hands.{hand, Spent};

    ghost then = { λ v xs w. w ≡ hand v.parts v.put (v.taken ++ xs) };

    ghost empty = { Spent };
}

/// A thief takes a job. Where it finds none, it learns nothing.
pub struct Steals;

impl Outcome<usize, Hand> for Steals {
    ghost use Rattle.std.specs.Prelude.{◌≡◌, ◌++◌};
    ghost use Rattle.bs_pool.specs.Hands.{hand};

    ghost then = { λ v xs w. w ≡ hand v.parts v.put (v.taken ++ xs) };
}

/// A deque, in the hand of its owner.
pub type Owner = Worker<usize, Global, Hand, Fair>;

/// A stealer from such a deque.
pub type Taker = Stealer<usize, Global, Hand, Fair>;
