//! Trees by number. Contracts see a `Catalog` as a shelf of codes and of rows.
ghost use Rattle.std.specs.Prelude.{◌≡◌, ◌<◌, ◌⊎◌, ◌↔◌, IsTrue, ℕ, [], ◌∷◌, length, OnOk, IfOk, IfSome, None, Some, slice_get};
ghost use Rattle.bs_tree.specs.Code.{child_codes};
ghost use Rattle.bs_catalog.specs.Making.{attached, merged, without_first, AreHalves};
ghost use Rattle.bs_catalog.specs.Memo.{Makes};
ghost use Rattle.bs_split.specs.Splitting.{init};
ghost use Rattle.bs_part.specs.Partition.{tail};
ghost use Rattle.bs_catalog.specs.Gathered.{AreGathered};
ghost use Rattle.bs_catalog.specs.Forests.{groups_at, OneForgotten};
ghost use Rattle.bs_catalog.specs.Shelf.{Code as Pairs, Numbers, AreRows, split_rows, part_rows, rows_at, HasSplits, HasParts, Grows};

use crate::arena::{Arena, without_first};
use crate::gathering::{Gathered, Groups, gather};
use crate::making::{leaf_parts, leaf_splits, parts_by, splits_by};
use crate::rows::Rows;
use bs_tree::Code;
use std::alloc::{AllocError, Global};
use std::marker::Model;

/// Trees by number, with what is made of them: at each number the rows of its splittings and of its partitions, none where
/// they are not made, and what is gathered of them, nothing where they are not gathered.
#[derive(Drop)]
pub struct Catalog {
    alloc: Global,
    arena: Arena,
    split_lists: Vec<Rows>,
    part_lists: Vec<Rows>,
    split_groups: Vec<Groups>,
    part_groups: Vec<Groups>,
}

impl Model for Catalog {
    ghost use Rattle.bs_catalog.specs.Shelf.{Shelf, split_rows, part_rows};
    ghost use Rattle.bs_catalog.specs.Memo.{HoldsRows};
    ghost use Rattle.bs_catalog.specs.Forests.{HoldsGroups};
    ghost use Rattle.bs_split.specs.Splitting.{init};
    ghost use Rattle.bs_part.specs.Partition.{tail};

    ghost Value = { Shelf };

    ghost view = { λ a. record { codes = a.arena; splits = a.split_lists.items; parts = a.part_lists.items } };

    ghost invariant = { λ a. HoldsRows split_rows a.arena a.split_lists.items × HoldsRows part_rows a.arena a.part_lists.items × HoldsGroups init a.arena a.split_lists.items a.split_groups.items × HoldsGroups tail a.arena a.part_lists.items a.part_groups.items };
}

/// The numbers of a tree's first child, and of the tree without it.
#[derive(Clone, Copy)]
pub struct Halves {
    pub child: u32,
    pub rest: u32,
}

/// The most numbers that the rows of a catalog have which is kept for another use, and the most of its trees.
const KEPT_NUMBERS: usize = 1 << 23;

const KEPT_TREES: usize = 1 << 17;

/// How many numbers the rows of these lists have.
fn numbers_in(lists: &[Rows]) -> usize {
    let mut numbers: usize = 0;
    'lists: for rows in lists {
        numbers = numbers.saturating_add(rows.numbers());
    }
    numbers
}

/// Whether there are rows at a number.
fn has_rows(lists: &[Rows], number: u32) -> bool
    ensures { IsTrue result ↔ (0 < length (rows_at lists.now number)) }
{
    match lists.get(number as usize) {
        Some(rows) => rows.len() > 0,
        None => false,
    }
}

/// Puts empty lists last, so that there is one at this place.
fn grow(alloc: Global, lists: &mut Vec<Rows>, place: usize) -> Result<(), AllocError>
    ensures same { (n : ℕ) → rows_at lists.new.items n ≡ rows_at lists.old.items n }
    ensures reached { OnOk result (place < length lists.new.items) }
{
    'fill: while lists.len() <= place {
        lists.push(Rows::new(alloc))?;
    }
    Ok(())
}

/// Forgets what is gathered of the rows of a number.
fn forget(alloc: Global, groups: &mut Vec<Groups>, number: u32)
    ensures { OneForgotten groups.old.items groups.new.items number }
{
    if (number as usize) < groups.len() {
        groups[number as usize] = Groups::new(alloc);
    }
}

/// Puts empty lists last, so that there is one at this place.
fn grow_groups(alloc: Global, groups: &mut Vec<Groups>, place: usize) -> Result<(), AllocError>
    ensures same { (n : ℕ) → groups_at groups.new.items n ≡ groups_at groups.old.items n }
    ensures reached { OnOk result (place < length groups.new.items) }
{
    'fill: while groups.len() <= place {
        groups.push(Groups::new(alloc))?;
    }
    Ok(())
}

/// Puts what is gathered of the rows of a number.
fn put_groups(
    alloc: Global,
    groups: &mut Vec<Groups>,
    number: u32,
    gathered: Groups,
) -> Result<(), AllocError>
    ensures { (n : ℕ) → (groups_at groups.new.items n ≡ groups_at groups.old.items n) ⊎ ((n ≡ number) × (groups_at groups.new.items n ≡ gathered)) }
{
    grow_groups(alloc, groups, number as usize)?;
    groups[number as usize] = gathered;
    Ok(())
}

/// What is gathered of the rows of a number, where anything is.
fn groups_of(groups: &[Groups], number: u32) -> Option<&[Gathered]>
    ensures is { IfSome result (λ gs. gs.now ≡ groups_at groups.now number) }
    ensures some { IfSome result (λ gs. 0 < length gs.now) }
{
    let groups = groups.get(number as usize)?.groups();
    if groups.is_empty() {
        None
    } else {
        Some(groups)
    }
}

/// Puts the rows at a number, and forgets what was gathered there.
fn put_rows(
    alloc: Global,
    lists: &mut Vec<Rows>,
    groups: &mut Vec<Groups>,
    number: u32,
    rows: Rows,
) -> Result<(), AllocError>
    ensures put { OnOk result (rows_at lists.new.items number ≡ rows) }
    ensures others { (n : ℕ) → (rows_at lists.new.items n ≡ rows_at lists.old.items n) ⊎ ((n ≡ number) × (rows_at lists.new.items n ≡ rows)) }
    ensures forgotten { OneForgotten groups.old.items groups.new.items number }
{
    forget(alloc, groups, number);
    grow(alloc, lists, number as usize)?;
    lists[number as usize] = rows;
    Ok(())
}

impl Catalog {
    /// No tree. Takes no memory.
    pub fn new(alloc: Global) -> Catalog
        ensures codes { result.codes ≡ [] }
        ensures splits { result.splits ≡ [] }
        ensures parts { result.parts ≡ [] }
    {
        Catalog {
            alloc,
            arena: Arena::new(alloc),
            split_lists: Vec::new(alloc),
            part_lists: Vec::new(alloc),
            split_groups: Vec::new(alloc),
            part_groups: Vec::new(alloc),
        }
    }

    /// This catalog, or an empty one in its place where it is too large to be kept for another use.
    pub fn trimmed(self) -> Catalog {
        if self.is_large() {
            Catalog::new(self.alloc)
        } else {
            self
        }
    }

    fn is_large(&self) -> bool {
        let numbers = numbers_in(&self.split_lists).saturating_add(numbers_in(&self.part_lists));
        KEPT_NUMBERS < numbers || KEPT_TREES < self.arena.len()
    }

    /// The code of a number.
    pub fn code(&self, number: u32) -> Code
        requires { number < length self.now.codes }
        ensures { Numbers self.now.codes number result }
    {
        self.arena.code(number)
    }

    /// The number of a code.
    pub fn number(&mut self, code: &Code) -> Result<u32, AllocError>
        ensures grows { Grows self.old self.new }
        ensures is { IfOk result (λ n. Numbers self.new.codes n code.now) }
    {
        self.arena.number(code)
    }

    /// The number of the first tree with the second as one more child.
    pub fn attach(&mut self, first: u32, second: u32) -> Result<u32, AllocError>
        ensures grows { Grows self.old self.new }
        ensures is { IfOk result (λ n. Makes attached self.new.codes first second n) }
    {
        self.arena.attach(first, second)
    }

    /// The number of the first tree with the children of the second's root as well.
    pub fn merge(&mut self, first: u32, second: u32) -> Result<u32, AllocError>
        ensures grows { Grows self.old self.new }
        ensures is { IfOk result (λ n. Makes merged self.new.codes first second n) }
    {
        self.arena.merge(first, second)
    }

    /// The first child of a tree and the tree without it, where it has more than one node.
    pub fn halves(&mut self, number: u32) -> Result<Option<Halves>, AllocError>
        requires { number < length self.old.codes }
        ensures grows { Grows self.old self.new }
        ensures none { (code : Pairs) → Numbers self.old.codes number code → IfOk result (λ halves. (halves ≡ None) ↔ (length (child_codes code) ≡ 0)) }
        ensures some { (code : Pairs) → Numbers self.old.codes number code → IfOk result (λ halves. IfSome halves (λ h. AreHalves self.new.codes code h.child h.rest)) }
    {
        let code = self.code(number);
        if code.arity() == 0 {
            return Ok(None);
        }
        let later = without_first(&code);
        let child = self.number(&code.child(0))?;
        let rest = self.number(&later)?;
        Ok(Some(Halves { child, rest }))
    }

    fn has_splits(&self, number: u32) -> bool
        ensures { IsTrue result ↔ HasSplits self.now number }
    {
        has_rows(&self.split_lists, number)
    }

    /// Puts the rows of the splittings of a tree of one node.
    fn put_leaf_splits(&mut self, number: u32, code: &Code) -> Result<(), AllocError>
        requires code { Numbers self.old.codes number code.now }
        requires leaf { length (child_codes code.now) ≡ 0 }
        ensures grows { Grows self.old self.new }
        ensures made { OnOk result (HasSplits self.new number) }
    {
        let _order = code.order();
        let rows = leaf_splits(self.alloc, number)?;
        put_rows(
            self.alloc,
            &mut self.split_lists,
            &mut self.split_groups,
            number,
            rows,
        )
    }

    /// Puts the rows of the splittings of a tree, from those of its first child and of the tree without it.
    fn put_splits(
        &mut self,
        number: u32,
        code: &Code,
        child: u32,
        rest: u32,
    ) -> Result<(), AllocError>
        requires code { Numbers self.old.codes number code.now }
        requires child { (x : Pairs) × (slice_get (child_codes code.now) 0 ≡ Some x) × Numbers self.old.codes child x }
        requires rest { Numbers self.old.codes rest (without_first code.now) }
        requires kids { HasSplits self.old child }
        requires others { HasSplits self.old rest }
        ensures grows { Grows self.old self.new }
        ensures made { OnOk result (HasSplits self.new number) }
    {
        let _order = code.order();
        let rows = splits_by(
            self.alloc,
            &mut self.arena,
            child,
            &self.split_lists[child as usize],
            &self.split_lists[rest as usize],
        )?;
        put_rows(
            self.alloc,
            &mut self.split_lists,
            &mut self.split_groups,
            number,
            rows,
        )
    }

    /// Makes the rows of a tree's splittings, where they are not made, from those of smaller trees.
    fn shelve_splits(&mut self, number: u32, code: &Code) -> Result<(), AllocError>
        requires { Numbers self.old.codes number code.now }
        ensures grows { Grows self.old self.new }
        ensures made { OnOk result (HasSplits self.new number) }
    {
        if self.has_splits(number) {
            return Ok(());
        }
        if code.arity() == 0 {
            return self.put_leaf_splits(number, code);
        }
        let first = code.child(0);
        let later = without_first(code);
        let child = self.number(&first)?;
        self.shelve_splits(child, &first)?;
        let rest = self.number(&later)?;
        self.shelve_splits(rest, &later)?;
        self.put_splits(number, code, child, rest)
    }

    /// Makes the rows of a tree's splittings, where they are not made.
    pub fn make_splits(&mut self, number: u32) -> Result<(), AllocError>
        requires { number < length self.old.codes }
        ensures grows { Grows self.old self.new }
        ensures made { OnOk result (HasSplits self.new number) }
    {
        let code = self.code(number);
        self.shelve_splits(number, &code)
    }

    /// The splittings of a tree that keep the root, in their order: for each the number of what is kept, and those of the trees
    /// that are cut off.
    pub fn splits(&self, number: u32) -> &Rows
        requires { HasSplits self.now number }
        ensures rows { (code : Pairs) → Numbers self.now.codes number code → AreRows self.now.codes result.now (split_rows code) }
        ensures is { result.now ≡ rows_at self.now.splits number }
    {
        &self.split_lists[number as usize]
    }

    /// Gathers the rows of a tree's splittings, all but the last, where that was not done.
    pub fn gather_splits(&mut self, number: u32) -> Result<(), AllocError>
        requires { HasSplits self.old number }
        ensures grows { Grows self.old self.new }
    {
        if groups_of(&self.split_groups, number).is_some() {
            return Ok(());
        }
        let rows = &self.split_lists[number as usize];
        let end = rows.len() - 1;
        let groups = gather(self.alloc, &mut self.arena, rows, 0, end)?;
        put_groups(self.alloc, &mut self.split_groups, number, groups)
    }

    /// The gathered rows of a tree's splittings, all but the last, where they are gathered.
    pub fn gathered_splits(&self, number: u32) -> Option<&[Gathered]>
        requires { HasSplits self.now number }
        ensures { IfSome result (λ gs. AreGathered self.now.codes (rows_at self.now.splits number) (init (rows_at self.now.splits number)) gs.now) }
    {
        groups_of(&self.split_groups, number)
    }

    fn has_parts(&self, number: u32) -> bool
        ensures { IsTrue result ↔ HasParts self.now number }
    {
        has_rows(&self.part_lists, number)
    }

    /// Puts the rows of the partitions of a tree of one node.
    fn put_leaf_parts(&mut self, number: u32, code: &Code) -> Result<(), AllocError>
        requires code { Numbers self.old.codes number code.now }
        requires leaf { length (child_codes code.now) ≡ 0 }
        ensures grows { Grows self.old self.new }
        ensures made { OnOk result (HasParts self.new number) }
    {
        let _order = code.order();
        let rows = leaf_parts(self.alloc, &mut self.arena, number)?;
        put_rows(
            self.alloc,
            &mut self.part_lists,
            &mut self.part_groups,
            number,
            rows,
        )
    }

    /// Puts the rows of the partitions of a tree, from those of its first child and of the tree without it.
    fn put_parts(
        &mut self,
        number: u32,
        code: &Code,
        child: u32,
        rest: u32,
    ) -> Result<(), AllocError>
        requires code { Numbers self.old.codes number code.now }
        requires child { (x : Pairs) × (slice_get (child_codes code.now) 0 ≡ Some x) × Numbers self.old.codes child x }
        requires rest { Numbers self.old.codes rest (without_first code.now) }
        requires kids { HasParts self.old child }
        requires others { HasParts self.old rest }
        ensures grows { Grows self.old self.new }
        ensures made { OnOk result (HasParts self.new number) }
    {
        let _order = code.order();
        let rows = parts_by(
            self.alloc,
            &mut self.arena,
            &self.part_lists[child as usize],
            &self.part_lists[rest as usize],
        )?;
        put_rows(
            self.alloc,
            &mut self.part_lists,
            &mut self.part_groups,
            number,
            rows,
        )
    }

    /// Makes the rows of a tree's partitions, where they are not made, from those of smaller trees.
    fn shelve_parts(&mut self, number: u32, code: &Code) -> Result<(), AllocError>
        requires { Numbers self.old.codes number code.now }
        ensures grows { Grows self.old self.new }
        ensures made { OnOk result (HasParts self.new number) }
    {
        if self.has_parts(number) {
            return Ok(());
        }
        if code.arity() == 0 {
            return self.put_leaf_parts(number, code);
        }
        let first = code.child(0);
        let later = without_first(code);
        let child = self.number(&first)?;
        self.shelve_parts(child, &first)?;
        let rest = self.number(&later)?;
        self.shelve_parts(rest, &later)?;
        self.put_parts(number, code, child, rest)
    }

    /// Makes the rows of a tree's partitions, where they are not made.
    pub fn make_parts(&mut self, number: u32) -> Result<(), AllocError>
        requires { number < length self.old.codes }
        ensures grows { Grows self.old self.new }
        ensures made { OnOk result (HasParts self.new number) }
    {
        let code = self.code(number);
        self.shelve_parts(number, &code)
    }

    /// The partitions of a tree, in their order: for each the number of the skeleton, and those of the parts.
    pub fn parts(&self, number: u32) -> &Rows
        requires { HasParts self.now number }
        ensures rows { (code : Pairs) → Numbers self.now.codes number code → AreRows self.now.codes result.now (part_rows code) }
        ensures is { result.now ≡ rows_at self.now.parts number }
    {
        &self.part_lists[number as usize]
    }

    /// Gathers the rows of a tree's partitions, all behind the first, where that was not done.
    pub fn gather_parts(&mut self, number: u32) -> Result<(), AllocError>
        requires { HasParts self.old number }
        ensures grows { Grows self.old self.new }
    {
        if groups_of(&self.part_groups, number).is_some() {
            return Ok(());
        }
        let rows = &self.part_lists[number as usize];
        let groups = gather(self.alloc, &mut self.arena, rows, 1, rows.len())?;
        put_groups(self.alloc, &mut self.part_groups, number, groups)
    }

    /// The gathered rows of a tree's partitions, all behind the first, where they are gathered.
    pub fn gathered_parts(&self, number: u32) -> Option<&[Gathered]>
        requires { HasParts self.now number }
        ensures { IfSome result (λ gs. AreGathered self.now.codes (rows_at self.now.parts number) (tail (rows_at self.now.parts number)) gs.now) }
    {
        groups_of(&self.part_groups, number)
    }
}
