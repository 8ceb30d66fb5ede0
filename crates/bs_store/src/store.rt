//! The store: a room under each lock.
ghost use Rattle.std.specs.Prelude.{◌≡◌, ◌+◌, ◌<◌, [], ◌∷◌, ◌++◌, IfOk, OnOk, OnErr};
ghost use Rattle.bs_core.specs.Codes.{children, stripe_of};
ghost use Rattle.bs_core.specs.Keys.{key_of};
ghost use Rattle.bs_core.specs.Machine.{times, code_at, without, pair, HasAll};
ghost use Rattle.bs_store.specs.Seats.{AgreeBoth};
ghost use Rattle.bs_store.specs.Trees.{NamesDecideTrees};
ghost use Rattle.bs_store.specs.Walks.{SamePass, Released, Interns};

use crate::lent::{give_in, hold_in, intern_in, release_in};
use crate::meeting::meet_at;
use crate::pass::Pass;
use crate::room::{Room, StoreName};
use crate::view::Board;
use crate::walk::Interned;
use bs_core::{Key, Name, stripe_of};
use bs_stripe::Lowered;
use bs_tree::Code;
use std::alloc::{AllocError, Global};
use std::marker::{Model, PhantomData};
use std::sync::{Mutex, Wait};

/// A store that many threads share. Contracts see its table, and how many stripes and passes it has.
#[derive(Drop)]
pub struct Store<N: StoreName> {
    pub(crate) alloc: Global,
    pub(crate) stripes: Vec<Mutex<Room<N>>>,
    pub(crate) board: Board,
    pub(crate) name: PhantomData<N>,
}

impl<N: StoreName> Model for Store<N> {
    ghost use Rattle.std.specs.Prelude.{◌≡◌, ◌<◌, ◌≤◌, vec_len};
    ghost use Rattle.bs_store.specs.Seats.{OfStore};

    ghost Value = { OfStore };

    ghost view = { λ s. record { table = s.board.shared.table_id; stripes = s.board.shared.key.stripes; passes = s.board.shared.key.passes } };

    ghost invariant = { λ s. (s.board.shared.table_id ≡ N.table) × (0 < s.board.shared.table_id.words) × (s.board.shared.table_id.slots ≡ 0) × (vec_len s.stripes ≡ s.board.shared.key.stripes) × (0 < vec_len s.stripes) × (vec_len s.stripes ≤ 256) };
}

impl<N: StoreName> Store<N> {
    /// Nothing. Its table is that of its name.
    pub fn named(&self)
        ensures { self.now.table ≡ N.table }
    {
        let _board = &self.board;
    }

    /// Interns one node, whose children the pass holds under the names of the key.
    pub(crate) fn intern_node<R: Wait>(
        &self,
        rt: &R,
        pass: &mut Pass,
        code: &Code,
        key: Key,
    ) -> Result<Interned, AllocError>
        requires own { pass.old.store ≡ self.now.table }
        requires children { HasAll (children code.now) pass.old.held }
        requires key { key ≡ key_of code.now pass.old.held }
        ensures same { SamePass pass.old pass.new }
        ensures stripe { IfOk result (λ i. i.name.stripe ≡ stripe_of self.now.stripes code.now) }
        ensures ok { IfOk result (λ i. Interns code.now i.name i.new pass.old.held pass.new.held) }
        ensures gains { OnOk result (pass.new.gains ≡ pass.old.gains + 1) }
        ensures err { OnErr result (pass.new ≡ pass.old) }
    {
        let place = stripe_of(code, self.stripes.len() as u16);
        'tries: for _ in rt.forever() {
            let mut room = self.stripes[usize::from(place)].lock(rt);
            if room.number() == place {
                return intern_in(self, &mut *room, pass, code, key);
            }
        }
        unreachable!()
    }

    /// Holds a name that the pass holds once more. Takes no memory.
    pub fn hold<R: Wait>(&self, rt: &R, pass: &mut Pass, name: Name)
        requires own { pass.old.store ≡ self.now.table }
        requires held { 0 < times name pass.old.held }
        ensures same { SamePass pass.old pass.new }
        ensures held { pass.new.held ≡ pass.old.held ++ pair name (code_at name pass.old.held) ∷ [] }
        ensures gains { pass.new.gains ≡ pass.old.gains + 1 }
    {
        let place = usize::from(name.stripe);
        'tries: for _ in rt.forever() {
            if place < self.stripes.len() {
                let mut room = self.stripes[place].lock(rt);
                if room.number() == name.stripe {
                    hold_in(self, &mut *room, pass, name);
                    return;
                }
            }
        }
        unreachable!()
    }

    /// Gives one pair back. Where its entry leaves, the pass holds the entry's links from then on. Takes no memory.
    pub(crate) fn release_node<R: Wait>(&self, rt: &R, pass: &mut Pass, name: Name) -> Lowered
        requires own { pass.old.store ≡ self.now.table }
        requires held { 0 < times name pass.old.held }
        ensures same { SamePass pass.old pass.new }
        ensures held { Released result name pass.old.held pass.new.held }
        ensures gains { pass.new.gains ≡ pass.old.gains }
    {
        let place = usize::from(name.stripe);
        'tries: for _ in rt.forever() {
            if place < self.stripes.len() {
                let mut room = self.stripes[place].lock(rt);
                if room.number() == name.stripe {
                    return release_in(self, &mut *room, pass, name);
                }
            }
        }
        unreachable!()
    }

    /// Moves one pair from the one pass to the other. Takes no memory.
    pub fn give<R: Wait>(&self, rt: &R, from: &mut Pass, to: &mut Pass, name: Name)
        requires own { (from.old.store ≡ self.now.table) × (to.old.store ≡ self.now.table) }
        requires held { 0 < times name from.old.held }
        ensures same { SamePass from.old from.new × SamePass to.old to.new }
        ensures from { (from.new.held ≡ without name from.old.held) × (from.new.gains ≡ from.old.gains) }
        ensures to { (to.new.held ≡ to.old.held ++ pair name (code_at name from.old.held) ∷ []) × (to.new.gains ≡ to.old.gains) }
    {
        let place = usize::from(name.stripe);
        'tries: for _ in rt.forever() {
            if place < self.stripes.len() {
                let mut room = self.stripes[place].lock(rt);
                if room.number() == name.stripe {
                    give_in(self, &mut *room, from, to, name);
                    return;
                }
            }
        }
        unreachable!()
    }

    /// Afterwards a name of the one and a name of the other are equal exactly where their trees are isomorphic. Takes no
    /// memory.
    pub fn meet(&self, a: &mut Pass, b: &mut Pass)
        requires { (a.old.store ≡ self.now.table) × (b.old.store ≡ self.now.table) }
        ensures same { (a.new ≡ a.old) × (b.new ≡ b.old) }
        ensures codes { AgreeBoth a.old.held b.old.held }
        ensures trees { NamesDecideTrees a.old.held b.old.held }
    {
        a.known();
        b.known();
        meet_at(&self.board, a, b);
    }
}
