//! Coloured rooted trees: building them, and the numbers that belong to a tree.
//!
//! Contracts see a `Tree` as a colour and the forest of its children (`specs::Tree`).
ghost use Rattle.std.specs.Prelude.{◌≡◌, ◌+◌, ◌*◌, ◌/◌, ◌^◌, ◌<◌, ◌≤◌, ◌++◌, ◌↔◌, [], ◌∷◌, map, IsPermutation, IsSortedByKey, IsTrue, OnOk, IfErr, IsErrAnd};
ghost use Rattle.std.specs.Ordering.{flip_args};
ghost use Rattle.bs_tree.specs.Tree.{none, trees, forest, order, IsColoured};
ghost use Rattle.bs_tree.specs.Isomorphic.{isomorphic};
ghost use Rattle.bs_tree.specs.Canonical.{level_sequence, sequence_cmp, canonical_sequence, canonical_of, IsCanonicalSequence};
ghost use Rattle.bs_tree.specs.Numbers.{symmetry, density, alpha, factorial};

use crate::code::Code;
use crate::code_list::CodeList;
use crate::{COLOURS, MAX_NODES};
use std::alloc::{AllocError, Global};
use std::cmp::Ordering;
use std::marker::Model;

/// A coloured rooted tree of at most MAX_NODES nodes.
#[derive(Drop)]
pub struct Tree {
    colour: u8,
    node_count: usize,
    children: Vec<Tree>,
}

impl Model for Tree {
    ghost use Rattle.bs_tree.specs.Tree.{Tree as Shape, order};
    ghost use Rattle.bs_tree.specs.TreeCode.{coded_tree, most_le-nodes};
    ghost use Rattle.std.specs.Prelude.{◌≡◌, ◌<◌, ◌≤◌, suc};
    ghost use Rattle.bs_tree.specs.Tree.{forest, nodes, IsWithin};
    ghost use Rattle.std.proofs.Common.{arith};

    ghost Value = { Shape };

    ghost coded = { coded_tree };

    ghost view = { λ a. record { colour = a.colour; below = forest a.children.items } };

    ghost invariant = { λ a. IsWithin a.colour a.node_count (forest a.children.items) };

    ghost size = { order };

    ghost size_decreases = { λ a h. Prim.omega (arith, most_le-nodes a.children.items) };
}

/// Why a tree was not grafted.
#[derive(Debug, Drop)]
pub enum GraftFault {
    /// The two trees have more than MAX_NODES nodes together.
    TooLarge,
    /// There is no memory for one more child.
    Memory(AllocError),
}

/// A tree that was not grafted, and why.
#[derive(Drop)]
pub struct GraftRefused {
    /// The tree that was to be the child.
    pub child: Tree,
    /// Why it is not.
    pub fault: GraftFault,
}

impl Tree {
    /// One node. Takes no memory; the allocator is for its later children.
    pub fn leaf(alloc: Global, colour: u8) -> Tree
        requires { colour < COLOURS }
        ensures { result ≡ record { colour = colour; below = none } }
    {
        Tree {
            colour,
            node_count: 1,
            children: Vec::new(alloc),
        }
    }

    /// Hangs the child last under the root. Takes memory for one more child.
    pub fn graft(&mut self, child: Tree) -> Result<(), GraftRefused>
        ensures ok { OnOk result (self.new ≡ record { colour = self.old.colour; below = forest (trees self.old.below ++ child ∷ []) }) }
        ensures err { IfErr result (λ refused. (self.new ≡ self.old) × (refused.child ≡ child)) }
        ensures too_large { (IsErrAnd result (λ refused. refused.fault ≡ GraftFault.TooLarge)) ↔ (MAX_NODES < order self.old + order child) }
    {
        let _ = &child.colour;
        if !self.has_room(&child) {
            return Err(GraftRefused {
                child,
                fault: GraftFault::TooLarge,
            });
        }
        match self.hang(child) {
            Ok(()) => Ok(()),
            Err(child) => Err(GraftRefused {
                child,
                fault: GraftFault::Memory(AllocError),
            }),
        }
    }

    /// Hangs a child that fits last under the root. Where there is no memory for one more child, it comes back.
    pub(crate) fn hang(&mut self, child: Tree) -> Result<(), Tree>
        requires { order self.old + order child ≤ MAX_NODES }
        ensures ok { OnOk result (self.new ≡ record { colour = self.old.colour; below = forest (trees self.old.below ++ child ∷ []) }) }
        ensures err { IfErr result (λ refused. (self.new ≡ self.old) × (refused ≡ child)) }
    {
        let _ = &child.colour;
        let count = child.order();
        match push_last(&mut self.children, child) {
            Ok(()) => {
                self.node_count += count;
                Ok(())
            }
            Err(child) => Err(child),
        }
    }

    /// Whether the child's nodes fit beside those of this tree.
    fn has_room(&self, child: &Tree) -> bool
        ensures { IsTrue result ↔ (order self.now + order child.now ≤ MAX_NODES) }
    {
        self.order() + child.order() <= MAX_NODES
    }

    /// The colour of the root.
    pub fn colour(&self) -> u8
        ensures value { result ≡ self.now.colour }
        ensures small { result < COLOURS }
    {
        self.colour
    }

    /// The children of the root, in their order.
    pub fn children(&self) -> &[Tree]
        ensures { result.now ≡ trees self.now.below }
    {
        self.children.as_slice()
    }

    /// The number of nodes.
    pub fn order(&self) -> usize
        ensures value { result ≡ order self.now }
        ensures some { 0 < result }
        ensures small { result ≤ MAX_NODES }
        ensures coloured { IsColoured COLOURS self.now }
    {
        self.node_count
    }

    /// The product of the symmetries of the children and of m! for each class of m isomorphic ones.
    pub fn symmetry(&self) -> u64
        ensures value { result ≡ symmetry self.now }
        ensures positive { 0 < result }
    {
        let codes = self.child_codes();
        let mut product: u64 = 1;
        'children: for (place, child) in self.children.iter().enumerate() {
            let later = codes.count_later(place) as u64;
            product = scaled(product, child.symmetry(), later);
        }
        product
    }

    /// The order times the densities of the children.
    pub fn density(&self) -> u64
        ensures value { result ≡ density self.now }
        ensures positive { 0 < result }
    {
        let mut product = self.node_count as u64;
        'children: for child in &self.children {
            product *= child.density();
        }
        product
    }

    /// The factorial of the order over the symmetry and the density: the number of monotonic labellings.
    pub fn alpha(&self) -> u64
        ensures value { result ≡ alpha self.now }
        ensures positive { 0 < result }
    {
        labellings(factorial(self.order()), self.symmetry(), self.density())
    }

    /// Whether the trees are equal up to the order of the children of each node.
    #[tactic(auto, using(crate::proofs::CodeOf::codes_equal))]
    pub fn isomorphic(&self, other: &Tree) -> bool
        ensures { result ≡ isomorphic self.now other.now }
    {
        self.code() == other.code()
    }

    /// Reorders the children of each node so that the level sequence is the canonical one.
    pub fn canonical(&mut self)
        ensures isomorphic { IsTrue (isomorphic self.old self.new) }
        ensures sequence { IsCanonicalSequence self.old (level_sequence self.new) }
        ensures value { self.new ≡ canonical_of self.old }
    {
        sort_by_code(&mut self.children);
        'children: for place in 0..self.children.len() {
            let child = &mut self.children[place];
            child.canonical();
        }
    }

    /// The canonical sequence, in about n^2 steps for n nodes.
    pub fn code(&self) -> Code
        ensures canonical { IsCanonicalSequence self.now result }
        ensures value { result ≡ canonical_sequence self.now }
    {
        let mut codes = CodeList::new();
        'children: for child in &self.children {
            codes.push(child.code());
        }
        codes.sort();
        Code::join(self.colour, &codes)
    }

    /// The codes of the children, in their order.
    fn child_codes(&self) -> CodeList
        ensures { result ≡ map canonical_sequence (trees self.now.below) }
    {
        let mut codes = CodeList::new();
        'children: for child in &self.children {
            codes.push(child.code());
        }
        codes
    }
}

/// Puts the child behind the others, or gives it back for want of memory.
fn push_last(children: &mut Vec<Tree>, child: Tree) -> Result<(), Tree>
    ensures ok { OnOk result (children.new.items ≡ children.old.items ++ child ∷ []) }
    ensures err { IfErr result (λ refused. (children.new.items ≡ children.old.items) × (refused ≡ child)) }
{
    match children.push(child) {
        Ok(()) => Ok(()),
        Err(refused) => Err(refused.value),
    }
}

/// Puts the trees with the greater codes first.
fn sort_by_code(children: &mut [Tree])
    ensures same { IsPermutation children.old children.new }
    ensures order { IsSortedByKey canonical_sequence (flip_args sequence_cmp) children.new }
{
    children.sort_unstable_by(|a, b| greater_code_first(a, b));
}

/// The order of trees in which a greater code comes first.
fn greater_code_first(a: &Tree, b: &Tree) -> Ordering
    ensures { result ≡ sequence_cmp (canonical_sequence b.now) (canonical_sequence a.now) }
{
    b.code().compare(&a.code())
}

/// The product with one more child's symmetry and the size of its class from there on.
fn scaled(product: u64, symmetry: u64, later: u64) -> u64
    requires later { later < MAX_NODES }
    requires fits { product * symmetry * (later + 1) < 2 ^ 64 }
    ensures { result ≡ product * symmetry * (later + 1) }
{
    product * symmetry * (later + 1)
}

/// This factorial over the symmetry and the density.
pub(crate) fn labellings(total: u64, symmetry: u64, density: u64) -> u64
    requires symmetry { 0 < symmetry }
    requires density { 0 < density }
    requires fits { symmetry * density < 2 ^ 64 }
    ensures { result ≡ total / (symmetry * density) }
{
    total / (symmetry * density)
}

/// The factorial.
pub(crate) fn factorial(n: usize) -> u64
    requires { n ≤ MAX_NODES }
    ensures { result ≡ factorial n }
{
    let mut product: u64 = 1;
    'factors: for k in 0..n {
        product *= k as u64 + 1;
    }
    product
}
