//! What a pass asks of a store: to intern a tree, to give one back, and to read one. Each is a walk of single steps.
ghost use Rattle.std.specs.Prelude.{◌≡◌, ◌+◌, ◌<◌, ◌≤◌, [], length, IfOk, OnOk, OnErr};
ghost use Rattle.bs_core.specs.Machine.{times, code_at, pair};
ghost use Rattle.bs_store.specs.Walks.{SamePass, More, Same};
ghost use Rattle.arrayvec.specs.ArrayVec.{array_vec_len};
ghost use Rattle.bs_tree.specs.Code.{root_colour};
ghost use Rattle.bs_core.specs.Codes.{children, stripe_of};
ghost use Rattle.bs_store.specs.Reading.{There, entered, Looks};

use crate::pass::Pass;
use crate::reader::{Reader, look_in};
use crate::room::StoreName;
use crate::store::Store;
use crate::walk::{Interned, NodeSteps, intern_all, release_all};
use crate::walk_read::{LinkSteps, Pending, read_code};
use arrayvec::ArrayVec;
use atomic_table::Badge;
use bs_core::{Key, Name};
use bs_stripe::Lowered;
use bs_tree::{Code, MAX_NODES};
use std::alloc::{AllocError, Global};
use std::mem;
use std::sync::Wait;

impl<R: Wait, N: StoreName> NodeSteps<R> for Store<N> {
    type Pass = Pass;

    ghost table = { λ s. s.table };

    ghost stripes = { λ s. s.stripes };

    ghost seen = { λ p. p };

    fn alloc(&self) -> Global {
        self.alloc
    }

    fn known(&self, pass: &Pass) {
        pass.known();
    }

    fn release_one(&self, rt: &R, pass: &mut Pass, name: Name) -> Lowered {
        self.release_node(rt, pass, name)
    }

    fn intern_one(
        &self,
        rt: &R,
        pass: &mut Pass,
        code: &Code,
        key: Key,
    ) -> Result<Interned, AllocError> {
        self.intern_node(rt, pass, code, key)
    }
}

impl<R: Wait, N: StoreName> LinkSteps<R> for Store<N> {
    type Reader = Reader;

    ghost table = { λ s. s.table };

    ghost seen = { λ r. r };

    fn known(&self, reader: &Reader) {
        reader.known();
    }

    fn look_one(
        &self,
        rt: &R,
        reader: &mut Reader,
        next: Pending,
        pending: &mut ArrayVec<Pending, MAX_NODES>,
    ) -> u8 {
        self.look_node(rt, reader, next, pending)
    }
}

impl<N: StoreName> Store<N> {
    /// The colour of the root of a name on the reader's path. The links of its entry are put last, in inverse order.
    fn look_node<R: Wait>(
        &self,
        rt: &R,
        reader: &mut Reader,
        next: Pending,
        pending: &mut ArrayVec<Pending, MAX_NODES>,
    ) -> u8
        requires own { reader.old.pass.store ≡ self.now.table }
        requires there { There next.name reader.old.pass.held reader.old.path }
        requires depth { next.depth < MAX_NODES }
        requires room { array_vec_len pending.old + length (children (code_at next.name (entered next.name reader.old.pass.held reader.old.path))) ≤ MAX_NODES }
        ensures colour { result ≡ root_colour (code_at next.name (entered next.name reader.old.pass.held reader.old.path)) }
        ensures looks { Looks next (code_at next.name (entered next.name reader.old.pass.held reader.old.path)) pending.old.items pending.new.items (entered next.name reader.old.pass.held reader.old.path) reader.new.path }
        ensures pass { reader.new.pass ≡ reader.old.pass }
    {
        let place = usize::from(next.name.stripe);
        'tries: for _ in rt.forever() {
            if place < self.stripes.len() {
                let mut room = self.stripes[place].lock(rt);
                if room.number() == next.name.stripe {
                    return look_in(self, &mut *room, reader, next, pending);
                }
            }
        }
        unreachable!()
    }

    /// Interns a tree: the pass holds its name once more, and all other pairs as often. Want of memory leaves all pairs as often.
    pub fn intern<R: Wait>(&self, rt: &R, pass: &mut Pass, code: &Code) -> Result<Name, AllocError>
        requires own { pass.old.store ≡ self.now.table }
        ensures same { SamePass pass.old pass.new }
        ensures stripe { IfOk result (λ n. n.stripe ≡ stripe_of self.now.stripes code.now) }
        ensures ok { IfOk result (λ n. More (pair n code.now) pass.old.held pass.new.held) }
        ensures err { OnErr result (Same pass.old.held pass.new.held) }
        ensures gained { OnOk result (pass.old.gains + 1 ≤ pass.new.gains) }
        ensures kept { pass.old.gains ≤ pass.new.gains }
        ensures most { pass.new.gains ≤ pass.old.gains + length code.now }
    {
        intern_all(rt, self, pass, code)
    }

    /// Gives a held name back: the pass holds it once less, and all other pairs as often. Takes no memory.
    pub fn release<R: Wait>(&self, rt: &R, pass: &mut Pass, name: Name)
        requires own { pass.old.store ≡ self.now.table }
        requires held { 0 < times name pass.old.held }
        ensures same { SamePass pass.old pass.new }
        ensures held { More (pair name (code_at name pass.old.held)) pass.new.held pass.old.held }
        ensures gains { pass.new.gains ≡ pass.old.gains }
    {
        release_all(rt, self, pass, name);
    }

    /// The code of a held name. The pass stays as it is. Takes no memory.
    pub fn read<R: Wait>(&self, rt: &R, pass: &mut Pass, name: Name) -> Code
        requires own { pass.old.store ≡ self.now.table }
        requires held { 0 < times name pass.old.held }
        ensures code { result ≡ code_at name pass.old.held }
        ensures pass { pass.new ≡ pass.old }
    {
        let mut reader = Reader {
            number: pass.number,
            badge: mem::replace(&mut pass.badge, Badge::blank()),
        };
        let code = read_code(rt, self, &mut reader, name);
        pass.badge = reader.into_badge();
        code
    }
}
