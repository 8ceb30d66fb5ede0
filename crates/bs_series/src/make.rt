//! Making a series: what is refused, and the numbers of what is new.
ghost use Rattle.std.specs.Prelude.{◌≡◌, ◌≢◌, ◌↔◌, ◌<◌, ◌++◌, ◌∷◌, [], ℕ, IsTrue, IfOk, IfErr, OnErr, MatchOption, MatchResult, length};
ghost use Rattle.bs_series.specs.Series.{empty_value, colours_of, depth, size};
ghost use Rattle.bs_series.specs.Keys.{IsKeyed};
ghost use Rattle.bs_series.specs.Accepted.{ColoursFit, EmptyFits, IsSolvable, IsAccepted, Refuses, IsWantOfMemory, Suits};
ghost use Rattle.bs_series.specs.Expressions.{series_at, meaning, wanted, OperandsIn, TableIn, HasColours, IsReducedKind, IsNode, IsColourCount, IsNew, IsOnlyAt, Adds, Extends};

use crate::book::{Book, Numbers};
use crate::kind::{Kind, SeriesFault, SeriesId};
use crate::{MAX_DEPTH, MAX_SIZE};
use bs_frac::Frac;
use bs_tableau::Tableau;
use std::cmp::max;

impl Book {
    /// The id of a series, which is added where it is not there yet. The faults are tested in their order; want of memory
    /// comes last, and only for a new series.
    pub fn make(&mut self, tables: &[Tableau], kind: Kind) -> Result<SeriesId, SeriesFault>
        requires operands { OperandsIn (length self.old) kind }
        requires table { TableIn (length tables.now) kind }
        requires colours { HasColours kind }
        requires suits { Suits tables.now self.old }
        ensures outcome { MatchResult result (λ id. IsAccepted tables.now (wanted tables.now self.old kind)) (λ fault. Refuses tables.now (wanted tables.now self.old kind) fault) }
        ensures is { IfOk result (λ id. (id < length self.new) × (series_at self.new id ≡ wanted tables.now self.old kind)) }
        ensures once { IfOk result (λ id. IsOnlyAt self.new id) }
        ensures added { IfOk result (λ id. Adds self.old (wanted tables.now self.old kind) self.new) }
        ensures ids_stay { Extends self.old self.new }
        ensures refused { OnErr result (self.new ≡ self.old) }
        ensures memory { IfErr result (λ fault. IsWantOfMemory fault → IsNew (wanted tables.now self.old kind) self.old) }
        ensures factors { IfOk result (λ id. IsKeyed (series_at self.new id)) }
        ensures suits { Suits tables.now self.new }
    {
        if !self.colours_fit(&kind) {
            return Err(SeriesFault::ColoursDiffer);
        }
        if !self.empty_fits(&kind) {
            return Err(SeriesFault::EmptyValue);
        }
        if !self.is_solvable(tables, &kind) {
            return Err(SeriesFault::NotSolvable);
        }
        let numbers = self.numbers(tables, &kind);
        if numbers.depth > MAX_DEPTH || numbers.size > MAX_SIZE {
            return Err(SeriesFault::TooDeep);
        }
        if let Some(id) = self.find(&kind) {
            return Ok(id);
        }
        match self.add(kind, numbers) {
            Ok(id) => Ok(id),
            Err(fault) => Err(SeriesFault::Memory(fault)),
        }
    }

    /// Whether the operands have the colours that the operation needs.
    fn colours_fit(&self, kind: &Kind) -> bool
        requires { OperandsIn (length self.now) kind.now }
        ensures { (colours : ℕ → ℕ) → (IsTrue result ↔ ColoursFit (meaning colours self.now kind.now)) }
    {
        match kind {
            Kind::Compose { first, second } => self.colours(*first) == self.colours(*second),
            Kind::Substitute { outer, .. } => self.colours(*outer) == 1,
            Kind::Modifying { of } => self.colours(*of) == 1,
            _ => true,
        }
    }

    /// Whether the operands have the empty values that the operation needs.
    fn empty_fits(&self, kind: &Kind) -> bool
        requires { OperandsIn (length self.now) kind.now }
        ensures { (colours : ℕ → ℕ) → (IsTrue result ↔ EmptyFits (meaning colours self.now kind.now)) }
    {
        match kind {
            Kind::Compose { first, .. } => self.empty_value(*first) == Frac::whole(1),
            Kind::Substitute { inner, .. } => self.empty_value(*inner) == Frac::whole(0),
            Kind::Inverse { of }
            | Kind::Adjoint { of }
            | Kind::Modified { of }
            | Kind::Modifying { of } => self.empty_value(*of) == Frac::whole(1),
            _ => true,
        }
    }

    /// Whether the series of a modifying integrator is not written as 0 at the leaf.
    fn is_solvable(&self, tables: &[Tableau], kind: &Kind) -> bool
        requires operands { OperandsIn (length self.now) kind.now }
        requires suits { Suits tables.now self.now }
        ensures { IsTrue result ↔ IsSolvable tables.now (wanted tables.now self.now kind.now) }
    {
        match kind {
            Kind::Modifying { of } => !self.leaf_value(tables, *of).is_zero(),
            _ => true,
        }
    }

    /// The numbers of a kind.
    fn numbers(&self, tables: &[Tableau], kind: &Kind) -> Numbers
        requires operands { OperandsIn (length self.now) kind.now }
        requires table { TableIn (length tables.now) kind.now }
        requires colours { HasColours kind.now }
        ensures colours { result.colours ≡ colours_of (wanted tables.now self.now kind.now) }
        ensures empty { result.empty ≡ empty_value (wanted tables.now self.now kind.now) }
        ensures depth { result.depth ≡ depth (wanted tables.now self.now kind.now) }
        ensures size { result.size ≡ size (wanted tables.now self.now kind.now) }
        ensures coloured { IsColourCount (colours_of (wanted tables.now self.now kind.now)) }
        ensures factors { IsKeyed (wanted tables.now self.now kind.now) }
    {
        let _nodes = &self.nodes;
        factor_is_reduced(kind);
        Numbers {
            colours: self.colours_of(tables, kind),
            empty: self.empty_of(kind),
            depth: self.depth_of(kind),
            size: self.size_of(kind),
        }
    }

    /// The number of colours of a kind.
    fn colours_of(&self, tables: &[Tableau], kind: &Kind) -> u8
        requires operands { OperandsIn (length self.now) kind.now }
        requires table { TableIn (length tables.now) kind.now }
        requires colours { HasColours kind.now }
        ensures value { result ≡ colours_of (wanted tables.now self.now kind.now) }
        ensures range { IsColourCount result }
    {
        match kind {
            Kind::Exact { colours } | Kind::Identity { colours } | Kind::Average { colours } => {
                *colours
            }
            Kind::Method { table } => tables[usize::from(*table)].colours() as u8,
            Kind::Compose { first, .. } => self.colours(*first),
            Kind::Substitute { inner, .. } => self.colours(*inner),
            Kind::Inverse { of }
            | Kind::Adjoint { of }
            | Kind::Modified { of }
            | Kind::Modifying { of }
            | Kind::Scale { of, .. } => self.colours(*of),
        }
    }

    /// The empty value of a kind.
    fn empty_of(&self, kind: &Kind) -> Frac
        requires { OperandsIn (length self.now) kind.now }
        ensures { (colours : ℕ → ℕ) → result ≡ empty_value (meaning colours self.now kind.now) }
    {
        match kind {
            Kind::Compose { second, .. } => self.empty_value(*second),
            Kind::Substitute { outer, .. } => self.empty_value(*outer),
            Kind::Scale { of, .. } => self.empty_value(*of),
            Kind::Modified { .. } | Kind::Modifying { .. } => Frac::whole(0),
            _ => Frac::whole(1),
        }
    }

    /// The depth of a kind, written out.
    fn depth_of(&self, kind: &Kind) -> usize
        requires { OperandsIn (length self.now) kind.now }
        ensures { (colours : ℕ → ℕ) → result ≡ depth (meaning colours self.now kind.now) }
    {
        match kind {
            Kind::Compose { first, second } => {
                1 + max(
                    self.node(*first).numbers.depth,
                    self.node(*second).numbers.depth,
                )
            }
            Kind::Substitute { inner, outer } => {
                1 + max(
                    self.node(*inner).numbers.depth,
                    self.node(*outer).numbers.depth,
                )
            }
            Kind::Inverse { of }
            | Kind::Adjoint { of }
            | Kind::Modified { of }
            | Kind::Modifying { of }
            | Kind::Scale { of, .. } => 1 + self.node(*of).numbers.depth,
            _ => 1,
        }
    }

    /// The number of nodes of a kind, written out.
    fn size_of(&self, kind: &Kind) -> usize
        requires { OperandsIn (length self.now) kind.now }
        ensures { (colours : ℕ → ℕ) → result ≡ size (meaning colours self.now kind.now) }
    {
        match kind {
            Kind::Compose { first, second } => {
                1 + self.node(*first).numbers.size + self.node(*second).numbers.size
            }
            Kind::Substitute { inner, outer } => {
                1 + self.node(*inner).numbers.size + self.node(*outer).numbers.size
            }
            Kind::Inverse { of }
            | Kind::Adjoint { of }
            | Kind::Modified { of }
            | Kind::Modifying { of }
            | Kind::Scale { of, .. } => 1 + self.node(*of).numbers.size,
            _ => 1,
        }
    }
}

/// The factor of a scaling is in lowest terms, as every fraction is.
fn factor_is_reduced(kind: &Kind)
    ensures { IsReducedKind kind.now }
{
    if let Kind::Scale { by, .. } = kind {
        let _den = by.den();
    }
}
