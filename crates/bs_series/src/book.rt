//! The book of a session's series: each distinct expression once. Contracts see a `Book` as the list of its expressions,
//! and an id as a place in it.
ghost use Rattle.std.specs.Prelude.{◌≡◌, ◌<◌, ◌≤◌, [], ℕ, length, IfSome, IfNone, IfOk, OnErr};
ghost use Rattle.bs_series.specs.Series.{empty_value, colours_of, depth, size};
ghost use Rattle.bs_series.specs.Keys.{IsKeyed};
ghost use Rattle.bs_series.specs.Expressions.{series_at, meaning, OperandsIn, IsColourCount, IsNode, IsNew, IsOnlyAt, onto, node};
ghost use Rattle.bs_series.specs.Accepted.{IsShallow};

use crate::kind::{Kind, SeriesId};
use bs_frac::Frac;
use std::alloc::{AllocError, Global};
use std::marker::Model;

/// A series of the book: its kind, and its numbers.
#[derive(Clone, Copy)]
pub(crate) struct Node {
    pub(crate) kind: Kind,
    pub(crate) numbers: Numbers,
}

/// The numbers of an expression written out.
#[derive(Clone, Copy)]
pub(crate) struct Numbers {
    pub(crate) colours: u8,
    pub(crate) empty: Frac,
    pub(crate) depth: usize,
    pub(crate) size: usize,
}

/// Distinct series expressions, named by ids. The expressions never change, and the ids stay.
#[derive(Drop)]
pub struct Book {
    pub(crate) alloc: Global,
    pub(crate) nodes: Vec<Node>,
}

impl Model for Book {
    ghost use Rattle.std.specs.Prelude.{List};
    ghost use Rattle.std.specs.Coded.{coded_list};
    ghost use Rattle.bs_series.specs.Series.{Series};
    ghost use Rattle.bs_series.specs.SeriesData.{coded_series};
    ghost use Rattle.bs_series.specs.Expressions.{expressions, IsBook};

    ghost Value = { List Series };

    ghost coded = { coded_list coded_series };

    ghost view = { λ a. expressions a.nodes.items };

    ghost invariant = { λ a. IsBook a.nodes.items };
}

impl Book {
    /// No series. Takes no memory.
    pub fn new(alloc: Global) -> Book
        ensures { result ≡ [] }
    {
        Book {
            alloc,
            nodes: Vec::new(alloc),
        }
    }

    /// No expression has two ids: a fact for proofs. It does nothing.
    pub fn ids_differ(&self)
        ensures { (i : ℕ) → i < length self.now → IsOnlyAt self.now i }
    {
        let _nodes = &self.nodes;
    }

    /// The node of a series.
    pub(crate) fn node(&self, id: SeriesId) -> Node
        requires { id < length self.now }
        ensures node { IsNode self.now id result }
        ensures once { IsOnlyAt self.now id }
    {
        self.nodes[id.place()]
    }

    /// The kind of a series. Its operands have lower ids.
    pub fn kind(&self, id: SeriesId) -> Kind
        requires { id < length self.now }
        ensures is { meaning (λ _. colours_of (series_at self.now id)) self.now result ≡ series_at self.now id }
        ensures operands { OperandsIn id result }
        ensures factors { IsKeyed (series_at self.now id) }
        ensures shallow { IsShallow (series_at self.now id) }
        ensures once { IsOnlyAt self.now id }
    {
        self.node(id).kind
    }

    /// The coefficient of the empty tree.
    pub fn empty_value(&self, id: SeriesId) -> Frac
        requires { id < length self.now }
        ensures { result ≡ empty_value (series_at self.now id) }
    {
        self.node(id).numbers.empty
    }

    /// The number of colours of the trees at which the series has coefficients.
    pub fn colours(&self, id: SeriesId) -> u8
        requires { id < length self.now }
        ensures value { result ≡ colours_of (series_at self.now id) }
        ensures range { IsColourCount result }
    {
        self.node(id).numbers.colours
    }

    /// The id of a kind that is there.
    pub(crate) fn find(&self, kind: &Kind) -> Option<SeriesId>
        requires { OperandsIn (length self.now) kind.now }
        ensures found { IfSome result (λ id. (id < length self.now) × (meaning (λ _. colours_of (series_at self.now id)) self.now kind.now ≡ series_at self.now id)) }
        ensures once { IfSome result (λ id. IsOnlyAt self.now id) }
        ensures not_found { IfNone result ((colours : ℕ → ℕ) → IsNew (meaning colours self.now kind.now) self.now) }
    {
        'nodes: for (place, node) in self.nodes.iter().enumerate() {
            if node.kind == *kind {
                return Some(SeriesId::of_place(place));
            }
        }
        None
    }

    /// One more series.
    pub(crate) fn add(&mut self, kind: Kind, numbers: Numbers) -> Result<SeriesId, AllocError>
        requires { IsNode (onto self.old (node kind numbers)) (length self.old) (node kind numbers) }
        ensures ok { IfOk result (λ id. (id ≡ length self.old) × (self.new ≡ onto self.old (node kind numbers))) }
        ensures once { IfOk result (λ id. IsOnlyAt self.new id) }
        ensures err { OnErr result (self.new ≡ self.old) }
    {
        let place = self.nodes.len();
        self.nodes.reserve(1)?;
        self.nodes.push_reserved(Node { kind, numbers });
        Ok(SeriesId::of_place(place))
    }
}
