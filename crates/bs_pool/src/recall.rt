//! The thieves come home, so that each owner knows all that was taken from its deque.
ghost use Rattle.std.specs.Prelude.{◌≡◌, ℕ, ◌+◌, ◌≤◌, vec_len};
ghost use Rattle.crossbeam_deque.specs.Handles.{stealer_deque};
ghost use Rattle.bs_pool.specs.Seats.{deque_of, carried, own_of_all, Lined, Manned};
ghost use Rattle.bs_pool.specs.Moves.{Both, Got, Rejoined, Home};

use crate::seat::Seat;
use crate::thief::Thief;
use std::alloc::Global;
use std::mem;

impl Seat {
    // The thief brings its part back.
    fn rejoin(&mut self, thief: Thief)
        requires { stealer_deque thief.taker ≡ deque_of self.old }
        ensures { Rejoined thief self.old self.new }
    {
        thief.come_home(&mut self.deque);
    }
}

/// Gives each deque the parts of its thieves back, and leaves no thief.
pub fn recall(alloc: Global, seats: &mut Vec<Seat>)
    requires { Manned seats.old.items }
    ensures { Home (vec_len seats.old) seats.old.items seats.new.items }
{
    for worker in 0..seats.len() {
        let crew = mem::replace(&mut seats[worker].thieves, Vec::new(alloc));
        send_home(seats, crew);
    }
}

// Each thief of one seat goes to its deque.
fn send_home(seats: &mut Vec<Seat>, crew: Vec<Thief>)
    requires { Lined 0 crew.items seats.old.items }
    ensures long { vec_len seats.new ≡ vec_len seats.old }
    ensures got { Both Got seats.old.items seats.new.items }
    ensures taken { (x : ℕ) → own_of_all x seats.new.items ≡ own_of_all x seats.old.items + carried x crew.items }
{
    let mut worker = 0;
    for thief in crew {
        seats[worker].rejoin(thief);
        worker += 1;
    }
}
