//! Elementary weights of Runge-Kutta methods: the value of a tree over a tableau.
//!
//! A walk over the tree's level sequence keeps one vector of stages for each open node, and multiplies the
//! sums over a child's stages into its parent's vector. That takes about n s^2 products for n nodes and
//! s stages, and no memory.
//!
//! `Weights` computes the same for many trees over one tableau, and remembers the edge sums of their subtrees: a subtree
//! that it has met costs s products, in place of s^2 for each of its nodes.
#![tactic(auto)]

mod elementary;
mod memory;
#[cfg(test)]
mod tests;
mod walk;
mod weights;

pub use elementary::weight;
pub use weights::Weights;
