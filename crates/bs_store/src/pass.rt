//! A pass: what one thread holds of a store.
ghost use Rattle.std.specs.Prelude.{◌≡◌, [], ◌∷◌};
ghost use Rattle.bs_store.specs.Seats.{Agree, IsPass, alone, hand, hand_of};
ghost use Rattle.bs_store.specs.Trees.{NamesDecideTrees};
ghost use Rattle.bs_store.specs.Walks.{Sound};

use crate::view::View;
use atomic_table::{Badge, Seat};
use std::marker::Model;
use std::mem;

/// A pass of a store. Contracts see its store, its number, the pairs that it holds, and how many pairs it has gained.
#[derive(Drop)]
pub struct Pass {
    pub(crate) number: usize,
    pub(crate) badge: Badge<View>,
}

impl Model for Pass {
    ghost use Rattle.bs_store.specs.Seats.{OfPass, hand_of, IsPass};

    ghost Value = { OfPass };

    ghost view = { λ p. record { store = p.badge.table_id; number = p.number; held = (hand_of p.badge.views).held; gains = (hand_of p.badge.views).gains } };

    ghost invariant = { λ p. IsPass p.number p.badge.views };
}

impl Pass {
    /// Its number. Takes no memory.
    pub fn number(&self) -> usize
        ensures { result ≡ self.now.number }
    {
        self.number
    }

    /// Two names that it holds are equal exactly where their codes are.
    pub fn agree(&self)
        ensures { Agree self.now.held }
    {
        let _badge = &self.badge;
    }

    /// What it holds is sound: a name has one code, a code has one name, and each code is one. So two names are equal
    /// exactly where their trees are isomorphic.
    pub fn known(&self)
        ensures sound { Sound self.now.held }
        ensures trees { NamesDecideTrees self.now.held self.now.held }
    {
        let _badge = &self.badge;
    }

    /// Its seat.
    pub(crate) fn into_seat(self) -> Seat<(), View>
        ensures { (result.table_id ≡ self.store) × (result.me ≡ (alone (hand self.number self.held self.gains), [])) }
    {
        let Pass { number: _, badge } = self;
        badge.into_seat::<()>()
    }
}

/// The seat of a pass. None is left in its place.
pub(crate) fn take_seat(number: usize, badge: &mut Badge<View>) -> Seat<(), View>
    requires { IsPass number badge.old.views }
    ensures { (result.table_id ≡ badge.old.table_id) × (result.me ≡ (alone (hand_of badge.old.views), [])) }
{
    mem::replace(badge, Badge::blank()).into_seat::<()>()
}
