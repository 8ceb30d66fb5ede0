//! Weights of many trees.
//!
//! Contracts see `Weights` as the tableau whose edge sums it remembers, or none.

ghost use Rattle.std.specs.Prelude.{◌≡◌, ◌<◌, All, IsTrue, None, Some, IfSome};
ghost use Rattle.bs_frac.specs.Fraction.{SameFraction};
ghost use Rattle.bs_frac.specs.Written.{checked};
ghost use Rattle.bs_tree.specs.Code.{tree_of};
ghost use Rattle.bs_tableau.specs.ElementaryWeight.{elementary_weight};
ghost use Rattle.bs_tableau.specs.Laws.{IfValue};
ghost use Rattle.bs_tableau.specs.WrittenWeight.{written_weight};

use crate::elementary::weight;
use crate::memory::Memory;
use bs_frac::Coef;
use bs_tableau::Tableau;
use bs_tree::Code;
use std::alloc::Global;
use std::marker::Model;

/// The weights of trees over a tableau, with the edge sums of the subtrees that it has met. Another tableau takes the place of
/// the last one.
#[derive(Drop)]
pub struct Weights {
    alloc: Global,
    memory: Option<Memory>,
}

impl Model for Weights {
    ghost use Rattle.std.specs.Prelude.{Option};
    ghost use Rattle.bs_tableau.specs.Table.{Table};

    ghost Value = { Option Table };

    ghost view = { λ a. a.memory };
}

impl Weights {
    /// Remembers nothing. Takes no memory.
    pub fn new(alloc: Global) -> Weights
        ensures { result ≡ None }
    {
        Weights {
            alloc,
            memory: None,
        }
    }

    /// The elementary weight of a tree: the sum over all maps of its nodes to stages, carried out stage by stage in the written
    /// order. Where memory is wanted nothing is remembered, and the weight is the same.
    pub fn weight(&mut self, table: &Tableau, code: &Code) -> Coef
        requires { All (λ pair. pair.1 < table.now.colours) code.now }
        ensures written { result ≡ written_weight checked table.now (tree_of code.now) }
        ensures elementary { IfValue result (λ x. SameFraction x (elementary_weight table.now (tree_of code.now))) }
    {
        prove!(0 < table.colours());
        self.written_weight(table, code)
    }

    fn written_weight(&mut self, table: &Tableau, code: &Code) -> Coef
        requires { All (λ pair. pair.1 < table.now.colours) code.now }
        ensures { result ≡ written_weight checked table.now (tree_of code.now) }
    {
        self.turn_to(table);
        match &mut self.memory {
            Some(memory) => memory.weight(code),
            None => weight(table, code),
        }
    }

    /// Remembers the edge sums of this tableau from now on, unless memory is wanted.
    fn turn_to(&mut self, table: &Tableau)
        ensures { IfSome self.new (λ t. t ≡ table.now) }
    {
        if !self.is_about(table) {
            self.memory = Memory::new(self.alloc, table).ok();
        }
    }

    /// Whether it remembers edge sums of this tableau.
    fn is_about(&self, table: &Tableau) -> bool
        ensures { IsTrue result → self.now ≡ Some table.now }
    {
        match &self.memory {
            Some(memory) => memory.is_about(table),
            None => false,
        }
    }
}
