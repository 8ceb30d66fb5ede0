//! A catalog that knows the text of each of its trees. Contracts see a `Scribe` as the shelf of its catalog.

ghost use Rattle.std.specs.Prelude.{◌≡◌, ◌<◌, ◌++◌, ◌↔◌, length, IfOk, IfSome, None, OnOk};
ghost use Rattle.bs_tree.specs.Code.{child_codes};
ghost use Rattle.bs_catalog.specs.Shelf.{Code as Pairs, Numbers, Grows};
ghost use Rattle.bs_catalog.specs.Making.{attached, merged, AreHalves};
ghost use Rattle.bs_catalog.specs.Memo.{Makes};
ghost use Rattle.bs_listing.specs.Texts.{spaced, head_text, IsFront};
ghost use Rattle.bs_listing.specs.Sides.{AreSplits, AreParts, kept_items, parted_items};

use crate::sides::{PartSide, SplitSide, crowns_of, heads_of, others_of};
use crate::texts::{push_head, push_tree};
use bs_catalog::{Catalog, Halves};
use bs_script::Texts;
use bs_tree::Code;
use std::alloc::{AllocError, Global};
use std::marker::Model;

/// Trees by number, with the texts of the first of them.
#[derive(Drop)]
pub(crate) struct Scribe {
    alloc: Global,
    catalog: Catalog,
    texts: Texts,
}

impl Model for Scribe {
    ghost use Rattle.bs_catalog.specs.Shelf.{Shelf};
    ghost use Rattle.bs_listing.specs.Texts.{HoldsTexts};

    ghost Value = { Shelf };

    ghost view = { λ a. a.catalog };

    ghost invariant = { λ a. HoldsTexts a.catalog.codes a.texts };
}

impl Scribe {
    /// No tree. Takes no memory.
    pub(crate) fn new(alloc: Global) -> Scribe {
        Scribe {
            alloc,
            catalog: Catalog::new(alloc),
            texts: Texts::new(alloc),
        }
    }

    /// The number of a code.
    pub(crate) fn number(&mut self, code: &Code) -> Result<u32, AllocError>
        ensures grows { Grows self.old self.new }
        ensures is { IfOk result (λ n. Numbers self.new.codes n code.now) }
    {
        self.catalog.number(code)
    }

    /// The first child of a tree and the tree without it, where it has more than one node.
    pub(crate) fn halves(&mut self, number: u32) -> Result<Option<Halves>, AllocError>
        requires { number < length self.old.codes }
        ensures grows { Grows self.old self.new }
        ensures none { (code : Pairs) → Numbers self.old.codes number code → IfOk result (λ halves. (halves ≡ None) ↔ (length (child_codes code) ≡ 0)) }
        ensures some { (code : Pairs) → Numbers self.old.codes number code → IfOk result (λ halves. IfSome halves (λ h. AreHalves self.new.codes code h.child h.rest)) }
    {
        self.catalog.halves(number)
    }

    /// The number of the first tree with the second as one more child.
    pub(crate) fn attach(&mut self, first: u32, second: u32) -> Result<u32, AllocError>
        ensures grows { Grows self.old self.new }
        ensures is { IfOk result (λ n. Makes attached self.new.codes first second n) }
    {
        self.catalog.attach(first, second)
    }

    /// The number of the first tree with the children of the second's root as well.
    pub(crate) fn merge(&mut self, first: u32, second: u32) -> Result<u32, AllocError>
        ensures grows { Grows self.old self.new }
        ensures is { IfOk result (λ n. Makes merged self.new.codes first second n) }
    {
        self.catalog.merge(first, second)
    }

    /// Appends the text of a tree with a bar behind it.
    pub(crate) fn push_head(&mut self, out: &mut Vec<u8>, number: u32) -> Result<(), AllocError>
        requires { number < length self.old.codes }
        ensures same { self.new ≡ self.old }
        ensures written { OnOk result ((code : Pairs) → Numbers self.old.codes number code → out.new.items ≡ out.old.items ++ head_text code) }
        ensures front { IsFront out.old.items out.new.items }
    {
        push_head(self.alloc, &self.catalog, &mut self.texts, number, out)
    }

    /// Appends a space and the text of a tree.
    pub(crate) fn push_tree(&mut self, out: &mut Vec<u8>, number: u32) -> Result<(), AllocError>
        requires { number < length self.old.codes }
        ensures same { self.new ≡ self.old }
        ensures written { OnOk result ((code : Pairs) → Numbers self.old.codes number code → out.new.items ≡ out.old.items ++ spaced code) }
        ensures front { IsFront out.old.items out.new.items }
    {
        push_tree(self.alloc, &self.catalog, &mut self.texts, number, out)
    }

    /// The splittings of a tree that keep the root, with an end behind each text.
    pub(crate) fn splits(&mut self, number: u32, end: &[u8]) -> Result<SplitSide, AllocError>
        requires { number < length self.old.codes }
        ensures grows { Grows self.old self.new }
        ensures are { IfOk result (λ side. (code : Pairs) → Numbers self.new.codes number code → AreSplits end.now self.new.codes side.heads.items side.texts (kept_items code)) }
    {
        self.catalog.make_splits(number)?;
        let rows = self.catalog.splits(number);
        let heads = heads_of(self.alloc, rows)?;
        let texts = others_of(self.alloc, &self.catalog, &mut self.texts, rows, 1, end)?;
        Ok(SplitSide { heads, texts })
    }

    /// The partitions of a tree, with an end behind each text.
    pub(crate) fn parts(&mut self, number: u32, end: &[u8]) -> Result<PartSide, AllocError>
        requires { number < length self.old.codes }
        ensures grows { Grows self.old self.new }
        ensures are { IfOk result (λ side. (code : Pairs) → Numbers self.new.codes number code → AreParts end.now self.new.codes side.crowns.items side.texts (parted_items code)) }
    {
        self.catalog.make_parts(number)?;
        let rows = self.catalog.parts(number);
        let crowns = crowns_of(self.alloc, rows)?;
        let texts = others_of(self.alloc, &self.catalog, &mut self.texts, rows, 2, end)?;
        Ok(PartSide { crowns, texts })
    }
}
