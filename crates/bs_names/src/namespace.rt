//! What the names of a session stand for: its trees, and its series with the book of their expressions.
//!
//! Contracts see a `Namespace` as a `Space`.

ghost use Rattle.std.specs.Prelude.{◌≡◌, ◌<◌, ◌+◌, ℕ, List, [], ◌∷◌, length, Some, None, IsPermutation, OnOk, OnErr, OnSome, IfOk, IfSome, IfNone, MatchOption, MatchResult};
ghost use Rattle.bs_series.specs.Accepted.{IsAccepted, Refuses, Suits};
ghost use Rattle.bs_series.specs.Expressions.{series_at, wanted, OperandsIn, TableIn, HasColours};
ghost use Rattle.bs_names.specs.Names.{at, Sets};
ghost use Rattle.bs_names.specs.Known.{is_taken};
ghost use Rattle.bs_names.specs.Space.{Space, Finds, known_of};
ghost use Rattle.bs_names.specs.Space.{IsBookOf};

use crate::live::{LiveTree, LiveTrees};
use bs_series::{Book, Kind, SeriesFault, SeriesId};
use bs_tableau::Tableau;
use indexmap::IndexMap;
use std::alloc::{AllocError, Global};
use std::marker::Model;

/// Names of trees and of series.
#[derive(Drop)]
pub struct Namespace {
    alloc: Global,
    live: LiveTrees,
    book: Book,
    series: IndexMap<Vec<u8>, SeriesId>,
}

impl Model for Namespace {
    ghost use Rattle.std.specs.Prelude.{length};
    ghost use Rattle.bs_names.specs.Space.{Space, space_code, meant, AreIn};

    ghost Value = { Space };

    ghost coded = { space_code };

    ghost view = { λ a. record { live = a.live; series = meant (λ k. k.items) a.book a.series.entries; book = a.book } };

    ghost invariant = { λ a. AreIn (length a.book) a.series.entries };
}

impl Namespace {
    /// No name. Takes no memory.
    pub fn new(alloc: Global) -> Namespace
        ensures { result ≡ record { live = []; series = []; book = [] } }
    {
        Namespace {
            alloc,
            live: LiveTrees::new(alloc),
            book: Book::new(alloc),
            series: IndexMap::new(alloc),
        }
    }

    /// The tree of a name.
    pub fn tree(&self, name: &[u8]) -> Option<LiveTree>
        ensures { result ≡ at name.now self.now.live }
    {
        self.live.find(name)
    }

    /// The series of a name.
    pub fn series(&self, name: &[u8]) -> Option<SeriesId>
        ensures { Finds self.now name.now result }
    {
        self.series.get(name).copied()
    }

    /// Does the name stand for a tree or for a series?
    pub fn is_taken(&self, name: &[u8]) -> bool
        ensures { result ≡ is_taken (known_of self.now) name.now }
    {
        self.tree(name).is_some() || self.series(name).is_some()
    }

    /// The expressions.
    pub fn book(&self) -> &Book
        ensures { result.now ≡ self.now.book }
    {
        &self.book
    }

    /// The id of a series, which the book gets where it has none like it. No name changes.
    pub fn make(&mut self, tables: &[Tableau], kind: Kind) -> Result<SeriesId, SeriesFault>
        requires operands { OperandsIn (length self.old.book) kind }
        requires table { TableIn (length tables.now) kind }
        requires colours { HasColours kind }
        requires suits { Suits tables.now self.old.book }
        ensures outcome { MatchResult result (λ id. IsAccepted tables.now (wanted tables.now self.old.book kind)) (λ fault. Refuses tables.now (wanted tables.now self.old.book kind) fault) }
        ensures is { IfOk result (λ id. (id < length self.new.book) × (series_at self.new.book id ≡ wanted tables.now self.old.book kind)) }
        ensures refused { OnErr result (self.new ≡ self.old) }
        ensures rest { IsBookOf tables.now self.old self.new }
    {
        self.book.make(tables, kind)
    }

    /// A free name stands for this series from now on. Where memory is wanted, nothing has changed.
    pub fn define(&mut self, name: &[u8], series: SeriesId) -> Result<(), AllocError>
        requires known { series < length self.old.book }
        requires free { at name.now self.old.series ≡ None }
        ensures ok { OnOk result (Sets self.old.series self.new.series name.now (Some (series_at self.old.book series))) }
        ensures rest { self.new ≡ record self.old { series = self.new.series } }
        ensures err { OnErr result (self.new ≡ self.old) }
    {
        let stored = Vec::from_slice(self.alloc, name)?;
        self.series.insert(stored, series)?;
        Ok(())
    }

    /// A free name stands for this tree from now on. Where memory is wanted, nothing has changed.
    pub fn insert(&mut self, name: &[u8], tree: LiveTree) -> Result<(), AllocError>
        requires free { at name.now self.old.live ≡ None }
        ensures ok { OnOk result (Sets self.old.live self.new.live name.now (Some tree)) }
        ensures len { OnOk result (length self.new.live ≡ length self.old.live + 1) }
        ensures one_more { OnOk result (IsPermutation ((name.now, tree) ∷ self.old.live) self.new.live) }
        ensures rest { self.new ≡ record self.old { live = self.new.live } }
        ensures err { OnErr result (self.new ≡ self.old) }
    {
        self.live.insert(name, tree)
    }

    /// Takes the tree of a name out, where it has one. Takes no memory.
    pub fn remove(&mut self, name: &[u8]) -> Option<LiveTree>
        ensures value { result ≡ at name.now self.old.live }
        ensures gone { Sets self.old.live self.new.live name.now None }
        ensures len { OnSome result (length self.new.live + 1 ≡ length self.old.live) }
        ensures one_less { IfSome result (λ tree. IsPermutation ((name.now, tree) ∷ self.new.live) self.old.live) }
        ensures rest { self.new ≡ record self.old { live = self.new.live } }
        ensures absent { IfNone result (self.new ≡ self.old) }
    {
        self.live.remove(name)
    }

    /// Takes one tree out, whichever; None where there is none. Takes no memory.
    pub fn pop(&mut self) -> Option<LiveTree>
        ensures taken { MatchOption result (self.old.live ≡ []) (λ tree. (name : List ℕ) × (at name self.old.live ≡ Some tree)
            × Sets self.old.live self.new.live name None × (length self.new.live + 1 ≡ length self.old.live)
            × IsPermutation ((name, tree) ∷ self.new.live) self.old.live) }
        ensures rest { self.new ≡ record self.old { live = self.new.live } }
        ensures empty { IfNone result (self.new ≡ self.old) }
    {
        self.live.pop()
    }
}
