//! The walk that reads the code of a held name along links, over the looks of a store.
//!
//! A look goes under one stripe's lock and comes out again. Between two looks the pairs on the reader's path keep their entries.
ghost use Rattle.std.specs.Prelude.{◌≡◌, ◌+◌, ◌<◌, ◌≤◌, ◌++◌, [], length};
ghost use Rattle.arrayvec.specs.ArrayVec.{array_vec_len};
ghost use Rattle.bs_tree.specs.Code.{root_colour};
ghost use Rattle.bs_core.specs.Codes.{children};
ghost use Rattle.bs_core.specs.Machine.{times, code_at};
ghost use Rattle.bs_store.specs.Walks.{Sound};
ghost use Rattle.bs_store.specs.Reading.{There, entered, backwards, Looks};

use arrayvec::ArrayVec;
use bs_core::Name;
use bs_tree::{Code, MAX_NODES, Pairs};
use std::sync::Wait;

/// A subtree that is left to read: its name, and how many levels below the root it stands.
#[derive(Clone, Copy, Default)]
pub struct Pending {
    pub name: Name,
    pub depth: u8,
}

/// What a walk sees of the store at a time.
pub trait LinkSteps<R: Wait> {
    ghost use Rattle.atomic_table.specs.Seated.{TableId};
    ghost use Rattle.bs_store.specs.Reading.{OfReader};

    type Reader;

    ghost table: { Self → TableId };

    ghost seen: { Self.Reader → OfReader };

    /// Nothing. It says that among what the pass holds, and on the path, names and trees determine each other.
    fn known(&self, reader: &Self::Reader)
        ensures held { Sound (seen reader.now).pass.held }
        ensures path { Sound (seen reader.now).path };

    /// The colour of the root of a name on the path. The links of its entry are put last, in inverse order. Takes no memory.
    fn look_one(
        &self,
        rt: &R,
        reader: &mut Self::Reader,
        next: Pending,
        pending: &mut ArrayVec<Pending, MAX_NODES>,
    ) -> u8
        requires store { (seen reader.old).pass.store ≡ table self.now }
        requires there { There next.name (seen reader.old).pass.held (seen reader.old).path }
        requires depth { next.depth < MAX_NODES }
        requires room { array_vec_len pending.old + length (children (code_at next.name (entered next.name (seen reader.old).pass.held (seen reader.old).path))) ≤ MAX_NODES }
        ensures colour { result ≡ root_colour (code_at next.name (entered next.name (seen reader.old).pass.held (seen reader.old).path)) }
        ensures looks { Looks next (code_at next.name (entered next.name (seen reader.old).pass.held (seen reader.old).path)) pending.old.items pending.new.items (entered next.name (seen reader.old).pass.held (seen reader.old).path) (seen reader.new).path }
        ensures pass { (seen reader.new).pass ≡ (seen reader.old).pass };
}

/// Puts the names last, in inverse order, to be read at this depth.
pub fn push_backwards(pending: &mut ArrayVec<Pending, MAX_NODES>, names: &[Name], depth: u8)
    requires { array_vec_len pending.old + length names.now ≤ MAX_NODES }
    ensures { pending.new.items ≡ pending.old.items ++ backwards depth names.now }
{
    let mut rest = names.len();
    'names: while rest > 0 {
        rest -= 1;
        pending.push(Pending {
            name: names[rest],
            depth,
        });
    }
}

/// The code of a held name. The pass keeps what it holds. Takes no memory.
pub fn read_code<R: Wait, W: LinkSteps<R>>(
    rt: &R,
    store: &W,
    reader: &mut W::Reader,
    name: Name,
) -> Code
    requires store { (W.seen reader.old).pass.store ≡ W.table store.now }
    requires held { 0 < times name (W.seen reader.old).pass.held }
    requires path { (W.seen reader.old).path ≡ [] }
    ensures code { result ≡ code_at name (W.seen reader.old).pass.held }
    ensures pass { (W.seen reader.new).pass ≡ (W.seen reader.old).pass }
    ensures path { (W.seen reader.new).path ≡ [] }
{
    let mut pairs = Pairs::new();
    let mut pending: ArrayVec<Pending, MAX_NODES> = ArrayVec::new();
    store.known(reader);
    pending.push(Pending { name, depth: 0 });
    'nodes: while let Some(next) = pending.pop() {
        store.known(reader);
        let colour = store.look_one(rt, reader, next, &mut pending);
        pairs.push((next.depth + 1, colour));
    }
    Code::of_canonical(pairs)
}
