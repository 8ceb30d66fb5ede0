//! The walks that give a tree's pairs back and that intern a tree, over the steps of a store.
//!
//! A step goes under one stripe's lock and comes out again. Between two steps other threads may change the store, so a walk
//! speaks of the pairs that its own pass holds alone, and of these by how often the pass holds each.
ghost use Rattle.std.specs.Prelude.{◌≡◌, ◌+◌, ◌<◌, ◌≤◌, ◌++◌, length, IfOk, OnOk, OnErr};
ghost use Rattle.arrayvec.specs.ArrayVec.{array_vec_len};
ghost use Rattle.bs_tree.specs.Code.{IsCode, root_colour};
ghost use Rattle.bs_core.specs.Codes.{children, stripe_of};
ghost use Rattle.bs_core.specs.Keys.{key_of};
ghost use Rattle.bs_core.specs.Machine.{times, code_at, pair, linked, HasAll};
ghost use Rattle.bs_store.specs.Walks.{SamePass, Sound, Released, Interns, More, Mores, Same, Within, Turned, Needs, Finishes, children_of};

use arrayvec::ArrayVec;
use bs_core::{Key, Name};
use bs_stripe::Lowered;
use bs_tree::{Code, MAX_NODES};
use std::alloc::{AllocError, Global};
use std::sync::Wait;

/// What an Intern of one node gives: its name, and whether its entry is new.
#[derive(Clone, Copy)]
pub struct Interned {
    pub name: Name,
    pub new: bool,
}

/// What a walk does to a pass at a time.
pub trait NodeSteps<R: Wait> {
    ghost use Rattle.atomic_table.specs.Seated.{TableId};
    ghost use Rattle.bs_store.specs.Seats.{OfPass};
    ghost use Rattle.std.specs.Prelude.{ℕ};

    type Pass;

    ghost table: { Self → TableId };

    ghost stripes: { Self → ℕ };

    ghost seen: { Self.Pass → OfPass };

    /// Where memory for keys comes from.
    fn alloc(&self) -> Global;

    /// Nothing. It says that within a pass names and trees determine each other.
    fn known(&self, pass: &Self::Pass)
        ensures { Sound (seen pass.now).held };

    /// Gives one pair back. Where its entry leaves, the pass holds the entry's links from then on. Takes no memory.
    fn release_one(&self, rt: &R, pass: &mut Self::Pass, name: Name) -> Lowered
        requires store { (seen pass.old).store ≡ table self.now }
        requires held { 0 < times name (seen pass.old).held }
        ensures pairs { Released result name (seen pass.old).held (seen pass.new).held }
        ensures same { SamePass (seen pass.old) (seen pass.new) }
        ensures gains { (seen pass.new).gains ≡ (seen pass.old).gains };

    /// Interns one node whose children the pass holds. Where its entry is new, the children's pairs become its links.
    fn intern_one(
        &self,
        rt: &R,
        pass: &mut Self::Pass,
        code: &Code,
        key: Key,
    ) -> Result<Interned, AllocError>
        requires store { (seen pass.old).store ≡ table self.now }
        requires children { HasAll (children code.now) (seen pass.old).held }
        requires key { key ≡ key_of code.now (seen pass.old).held }
        ensures stripe { IfOk result (λ i. i.name.stripe ≡ stripe_of (stripes self.now) code.now) }
        ensures ok { IfOk result (λ i. Interns code.now i.name i.new (seen pass.old).held (seen pass.new).held) }
        ensures err { OnErr result ((seen pass.new).held ≡ (seen pass.old).held) }
        ensures same { SamePass (seen pass.old) (seen pass.new) }
        ensures gained { OnOk result ((seen pass.new).gains ≡ (seen pass.old).gains + 1) }
        ensures stayed { OnErr result ((seen pass.new).gains ≡ (seen pass.old).gains) };
}

/// Puts the names last.
fn push_all(pending: &mut ArrayVec<Name, MAX_NODES>, names: &[Name])
    requires { array_vec_len pending.old + length names.now ≤ MAX_NODES }
    ensures { pending.new.items ≡ pending.old.items ++ names.now }
{
    'names: for name in names {
        pending.push(*name);
    }
}

/// Puts the names of the links of an entry that left last.
fn push_links(pending: &mut ArrayVec<Name, MAX_NODES>, lowered: Lowered)
    requires { array_vec_len pending.old + length (children_of lowered) ≤ MAX_NODES }
    ensures { pending.new.items ≡ pending.old.items ++ children_of lowered }
{
    match lowered {
        Lowered::Kept => {}
        Lowered::Gone(key) => push_all(pending, key.children()),
    }
}

/// Gives one pair back, and where an entry leaves, the pairs that its links were, and so on. Takes no memory.
pub fn release_all<R: Wait, W: NodeSteps<R>>(rt: &R, store: &W, pass: &mut W::Pass, name: Name)
    requires store { (W.seen pass.old).store ≡ W.table store.now }
    requires held { 0 < times name (W.seen pass.old).held }
    ensures pairs { More (pair name (code_at name (W.seen pass.old).held)) (W.seen pass.new).held (W.seen pass.old).held }
    ensures same { SamePass (W.seen pass.old) (W.seen pass.new) }
    ensures gains { (W.seen pass.new).gains ≡ (W.seen pass.old).gains }
{
    let mut pending: ArrayVec<Name, MAX_NODES> = ArrayVec::new();
    store.known(pass);
    pending.push(name);
    'walk: while let Some(next) = pending.pop() {
        store.known(pass);
        let lowered = store.release_one(rt, pass, next);
        store.known(pass);
        push_links(&mut pending, lowered);
    }
}

/// Gives the pairs of a code's first children back.
fn undo<R: Wait, W: NodeSteps<R>>(
    rt: &R,
    store: &W,
    pass: &mut W::Pass,
    code: &Code,
    names: ArrayVec<Name, MAX_NODES>,
)
    requires store { (W.seen pass.old).store ≡ W.table store.now }
    requires few { array_vec_len names ≤ length (children code.now) }
    requires within { Within (linked names.items (children code.now)) (W.seen pass.old).held }
    ensures pairs { Mores (linked names.items (children code.now)) (W.seen pass.new).held (W.seen pass.old).held }
    ensures same { SamePass (W.seen pass.old) (W.seen pass.new) }
    ensures gains { (W.seen pass.new).gains ≡ (W.seen pass.old).gains }
{
    let mut rest = names;
    'undo: while let Some(name) = rest.pop() {
        store.known(pass);
        release_all(rt, store, pass, name);
    }
}

/// Gives the children's pairs back where the node's entry was there. No entry leaves, since the node's has them as links.
fn finish<R: Wait, W: NodeSteps<R>>(
    rt: &R,
    store: &W,
    pass: &mut W::Pass,
    code: &Code,
    names: ArrayVec<Name, MAX_NODES>,
    new: bool,
)
    requires store { (W.seen pass.old).store ≡ W.table store.now }
    requires few { array_vec_len names ≤ length (children code.now) }
    requires needs { Needs new (linked names.items (children code.now)) (W.seen pass.old).held }
    ensures pairs { Finishes new (linked names.items (children code.now)) (W.seen pass.old).held (W.seen pass.new).held }
    ensures same { SamePass (W.seen pass.old) (W.seen pass.new) }
    ensures gains { (W.seen pass.new).gains ≡ (W.seen pass.old).gains }
{
    match new {
        true => {}
        false => undo(rt, store, pass, code, names),
    }
}

/// Nothing. It says that a code is one.
fn known_code(code: &Code)
    ensures { IsCode code.now }
{
    let _order = code.order();
}

/// The key of a code, where the names of its children are these.
fn key_of(alloc: Global, code: &Code, names: &[Name]) -> Result<Key, AllocError>
    requires { length names.now ≡ length (children code.now) }
    ensures { IfOk result (λ key. key ≡ record { colour = root_colour code.now; children = names.now }) }
{
    let pairs = code.pairs();
    Key::new(alloc, pairs[0].1, names)
}

/// Interns the node, whose children are held under these names.
fn intern_node<R: Wait, W: NodeSteps<R>>(
    rt: &R,
    store: &W,
    pass: &mut W::Pass,
    code: &Code,
    names: ArrayVec<Name, MAX_NODES>,
) -> Result<Name, AllocError>
    requires store { (W.seen pass.old).store ≡ W.table store.now }
    requires all { array_vec_len names ≡ length (children code.now) }
    requires within { Within (linked names.items (children code.now)) (W.seen pass.old).held }
    ensures stripe { IfOk result (λ n. n.stripe ≡ stripe_of (W.stripes store.now) code.now) }
    ensures ok { IfOk result (λ n. Turned n code.now names.items (W.seen pass.old).held (W.seen pass.new).held) }
    ensures err { OnErr result (Mores (linked names.items (children code.now)) (W.seen pass.new).held (W.seen pass.old).held) }
    ensures same { SamePass (W.seen pass.old) (W.seen pass.new) }
    ensures gained { OnOk result ((W.seen pass.new).gains ≡ (W.seen pass.old).gains + 1) }
    ensures stayed { OnErr result ((W.seen pass.new).gains ≡ (W.seen pass.old).gains) }
{
    store.known(pass);
    let key = match key_of(store.alloc(), code, names.as_slice()) {
        Ok(key) => key,
        Err(fault) => {
            undo(rt, store, pass, code, names);
            return Err(fault);
        }
    };
    match store.intern_one(rt, pass, code, key) {
        Ok(interned) => {
            finish(rt, store, pass, code, names, interned.new);
            Ok(interned.name)
        }
        Err(fault) => {
            undo(rt, store, pass, code, names);
            Err(fault)
        }
    }
}

/// Interns the children, each by this rule, and then the node. After want of memory each pair that had come is given back.
pub fn intern_all<R: Wait, W: NodeSteps<R>>(
    rt: &R,
    store: &W,
    pass: &mut W::Pass,
    code: &Code,
) -> Result<Name, AllocError>
    requires store { (W.seen pass.old).store ≡ W.table store.now }
    ensures stripe { IfOk result (λ n. n.stripe ≡ stripe_of (W.stripes store.now) code.now) }
    ensures ok { IfOk result (λ n. More (pair n code.now) (W.seen pass.old).held (W.seen pass.new).held) }
    ensures err { OnErr result (Same (W.seen pass.old).held (W.seen pass.new).held) }
    ensures same { SamePass (W.seen pass.old) (W.seen pass.new) }
    ensures some { OnOk result ((W.seen pass.old).gains + 1 ≤ (W.seen pass.new).gains) }
    ensures kept { (W.seen pass.old).gains ≤ (W.seen pass.new).gains }
    ensures most { (W.seen pass.new).gains ≤ (W.seen pass.old).gains + length code.now }
{
    let mut names: ArrayVec<Name, MAX_NODES> = ArrayVec::new();
    known_code(code);
    'children: for place in 0..code.arity() {
        let child = code.child(place);
        match intern_all(rt, store, pass, &child) {
            Ok(name) => {
                names.push(name);
            }
            Err(fault) => {
                undo(rt, store, pass, code, names);
                return Err(fault);
            }
        }
    }
    intern_node(rt, store, pass, code, names)
}
