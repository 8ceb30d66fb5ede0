//! The locals go to the seats, and back. A local cannot be dropped, so each way takes no memory.
ghost use Rattle.std.specs.Prelude.{◌≡◌, ◌≤◌, map, reverse, vec_len, vec_capacity};
ghost use Rattle.bs_pool.specs.Seats.{local_of, seat_of};

use crate::seat::{Member, Seat};

/// Puts each local on its seat, the last one first.
pub fn sit_down<L>(locals: &mut Vec<L>, seats: &mut Vec<Seat>, members: &mut Vec<Member<L>>)
    requires as_many { vec_len seats.old ≡ vec_len locals.old }
    requires none { vec_len members.old ≡ 0 }
    requires room { vec_len locals.old ≤ vec_capacity members.old }
    ensures locals { reverse (map local_of members.new.items) ≡ locals.old.items }
    ensures seats { reverse (map seat_of members.new.items) ≡ seats.old.items }
    ensures left { (vec_len locals.new ≡ 0) × (vec_len seats.new ≡ 0) }
    ensures room { (vec_capacity locals.new ≡ vec_capacity locals.old) × (vec_capacity seats.new ≡ vec_capacity seats.old) }
    ensures as_many { vec_len members.new ≡ vec_len locals.old }
{
    for _ in 0..locals.len() {
        let local = locals.take_last();
        let seat = seats.take_last();
        members.push_reserved(Member { local, seat });
    }
}

/// Takes each local from its seat, the last one first, so that they stand in their first order again.
pub fn stand_up<L>(members: &mut Vec<Member<L>>, locals: &mut Vec<L>, seats: &mut Vec<Seat>)
    requires none { (vec_len locals.old ≡ 0) × (vec_len seats.old ≡ 0) }
    requires room { (vec_len members.old ≤ vec_capacity locals.old) × (vec_len members.old ≤ vec_capacity seats.old) }
    ensures locals { locals.new.items ≡ reverse (map local_of members.old.items) }
    ensures seats { seats.new.items ≡ reverse (map seat_of members.old.items) }
    ensures left { vec_len members.new ≡ 0 }
{
    for _ in 0..members.len() {
        let Member { local, seat } = members.take_last();
        locals.push_reserved(local);
        seats.push_reserved(seat);
    }
}
