//! A book over a list of tableaux and over a front of it.
ghost use Rattle.bs_series.specs.Fronts.{SameOverFront, IsSameOverFronts};

use crate::book::Book;

impl Book {
    /// Nothing. A book that suits a front of a list of tableaux has the same written values over the list as over the front.
    pub fn serves_longer_lists(&self)
        ensures { IsSameOverFronts self.now }
    {
        let _nodes = &self.nodes;
    }
}

/// An expression that reads a front of the tableaux alone has the same written values over the whole list.
pub fn written_values_need_a_front()
    ensures { SameOverFront }
{}
