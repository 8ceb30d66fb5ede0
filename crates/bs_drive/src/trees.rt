//! A session's trees over a shared store, by their numbers: a pass holds each of them by its name.
ghost use Rattle.std.specs.Prelude.{◌≡◌, ◌+◌, ◌≤◌, None, IfOk, IfSome, OnOk, OnErr, MatchOption, slice_set};
ghost use Rattle.bs_core.specs.Machine.{code_at};
ghost use Rattle.bs_store.specs.Walks.{SamePass, More, Mores, Same, Within};
ghost use Rattle.bs_drive.specs.Alone.{compared_codes};
ghost use Rattle.bs_drive.specs.Shared.{held_of, tree_in, code_in, Has, Adds, SameBeside};

use bs_core::Held;
use bs_session::Answer;
use bs_store::{Pass, Store, StoreName};
use bs_tree::Code;
use std::alloc::AllocError;
use std::sync::Wait;

/// Interns a tree.
pub(crate) fn intern<N: StoreName, R: Wait>(
    rt: &R,
    store: &Store<N>,
    pass: &mut Pass,
    code: &Code,
) -> Result<Held, AllocError>
    requires own { pass.old.store ≡ store.now.table }
    ensures same { SamePass pass.old pass.new }
    ensures code { IfOk result (λ tree. tree.code ≡ code.now) }
    ensures more { IfOk result (λ tree. More tree pass.old.held pass.new.held) }
    ensures err { OnErr result (Same pass.old.held pass.new.held) }
    ensures gained { OnOk result (pass.old.gains + 1 ≤ pass.new.gains) }
    ensures kept { pass.old.gains ≤ pass.new.gains }
{
    let name = store.intern(rt, pass, code)?;
    Ok(Held { name, code: *code })
}

/// Releases a tree. Takes no memory.
pub(crate) fn release<N: StoreName, R: Wait>(rt: &R, store: &Store<N>, pass: &mut Pass, tree: Held)
    requires own { pass.old.store ≡ store.now.table }
    requires held { Has pass.old.held tree }
    ensures same { SamePass pass.old pass.new }
    ensures less { More tree pass.new.held pass.old.held }
    ensures gains { pass.new.gains ≡ pass.old.gains }
{
    pass.known();
    store.release(rt, pass, tree.name);
}

/// Releases the tree of a place, where it has one. Takes no memory.
fn release_some<N: StoreName, R: Wait>(
    rt: &R,
    store: &Store<N>,
    pass: &mut Pass,
    tree: Option<Held>,
)
    requires own { pass.old.store ≡ store.now.table }
    requires held { IfSome tree (Has pass.old.held) }
    ensures same { SamePass pass.old pass.new }
    ensures less { MatchOption tree (pass.new.held ≡ pass.old.held) (λ tree. More tree pass.new.held pass.old.held) }
    ensures gains { pass.new.gains ≡ pass.old.gains }
{
    if let Some(tree) = tree {
        release(rt, store, pass, tree);
    }
}

/// Interns a tree, and puts it at the next number. Want of memory leaves the trees.
pub(crate) fn add<N: StoreName, R: Wait>(
    rt: &R,
    store: &Store<N>,
    pass: &mut Pass,
    trees: &mut Vec<Option<Held>>,
    code: &Code,
) -> Result<(), AllocError>
    requires own { pass.old.store ≡ store.now.table }
    ensures same { SamePass pass.old pass.new }
    ensures added { OnOk result (Adds code.now trees.old.items trees.new.items) }
    ensures beside { SameBeside trees.old.items pass.old.held trees.new.items pass.new.held }
    ensures gained { OnOk result (pass.old.gains + 1 ≤ pass.new.gains) }
    ensures kept { pass.old.gains ≤ pass.new.gains }
{
    trees.reserve(1)?;
    let tree = intern(rt, store, pass, code)?;
    trees.push_reserved(Some(tree));
    Ok(())
}

/// The tree of a number.
fn tree_in(trees: &[Option<Held>], number: usize) -> Option<Held>
    ensures { result ≡ tree_in trees.now number }
{
    match trees.get(number) {
        Some(tree) => *tree,
        None => None,
    }
}

/// The place of a number is empty from then on. Takes no memory.
fn empty(trees: &mut Vec<Option<Held>>, number: usize)
    ensures { trees.new.items ≡ slice_set trees.old.items number None }
{
    if number < trees.len() {
        trees[number] = None;
    }
}

/// Gives the tree of a number back, and its place is empty from then on. Takes no memory.
pub(crate) fn give_back<N: StoreName, R: Wait>(
    rt: &R,
    store: &Store<N>,
    pass: &mut Pass,
    trees: &mut Vec<Option<Held>>,
    number: usize,
)
    requires own { pass.old.store ≡ store.now.table }
    requires held { Within (held_of trees.old.items) pass.old.held }
    ensures same { SamePass pass.old pass.new }
    ensures emptied { trees.new.items ≡ slice_set trees.old.items number None }
    ensures beside { SameBeside trees.old.items pass.old.held trees.new.items pass.new.held }
    ensures gains { pass.new.gains ≡ pass.old.gains }
{
    let tree = tree_in(trees, number);
    empty(trees, number);
    release_some(rt, store, pass, tree);
}

/// Gives all trees back that there still are. Takes no memory.
pub(crate) fn give_all_back<N: StoreName, R: Wait>(
    rt: &R,
    store: &Store<N>,
    pass: &mut Pass,
    trees: Vec<Option<Held>>,
)
    requires own { pass.old.store ≡ store.now.table }
    requires held { Within (held_of trees.items) pass.old.held }
    ensures same { SamePass pass.old pass.new }
    ensures less { Mores (held_of trees.items) pass.new.held pass.old.held }
    ensures gains { pass.new.gains ≡ pass.old.gains }
{
    let mut rest = trees;
    'trees: while let Some(tree) = rest.pop() {
        release_some(rt, store, pass, tree);
    }
}

/// Whether the trees of two numbers are isomorphic. Their names tell it.
pub(crate) fn compared(pass: &Pass, trees: &[Option<Held>], left: usize, right: usize) -> Answer
    requires held { Within (held_of trees.now) pass.now.held }
    ensures { result ≡ compared_codes (code_in trees.now left) (code_in trees.now right) }
{
    pass.known();
    let (Some(left), Some(right)) = (tree_in(trees, left), tree_in(trees, right)) else {
        return Answer::No;
    };
    if left.name == right.name {
        Answer::Yes
    } else {
        Answer::No
    }
}
