//! A pass with the names that it holds, in order.
ghost use Rattle.std.specs.Prelude.{◌≡◌};

use bs_core::Name;
use bs_store::{Pass, Store, StoreName};
use bs_tree::Code;
use std::alloc::{AllocError, Global};
use std::collections::VecDeque;
use std::marker::Model;
use std::sync::Wait;

/// A pass, and names that it holds. Contracts see the pass.
#[derive(Drop)]
pub(crate) struct Holder {
    pass: Pass,
    names: VecDeque<Name>,
}

impl Model for Holder {
    ghost use Rattle.bs_store.specs.Seats.{OfPass};
    ghost use Rattle.bs_store.specs.Walks.{Keeps};

    ghost Value = { OfPass };

    ghost view = { λ h. h.pass };

    ghost invariant = { λ h. Keeps h.names.items h.pass.held };
}

impl Holder {
    /// A pass with no name yet.
    pub(crate) fn new(alloc: Global, pass: Pass) -> Holder
        ensures { result.store ≡ pass.store }
    {
        Holder {
            pass,
            names: VecDeque::new(alloc),
        }
    }

    /// The pass.
    pub(crate) fn into_pass(self) -> Pass
        ensures { result.store ≡ self.store }
    {
        let Holder { pass, names: _ } = self;
        pass
    }

    /// Interns the tree, and puts its name last.
    pub(crate) fn intern<N: StoreName, R: Wait>(
        &mut self,
        rt: &R,
        store: &Store<N>,
        code: &Code,
    ) -> Result<Name, AllocError>
        requires { self.old.store ≡ store.now.table }
        ensures { self.new.store ≡ store.now.table }
    {
        let name = store.intern(rt, &mut self.pass, code)?;
        self.names.push_back(name)?;
        Ok(name)
    }

    /// Gives the first name back.
    pub(crate) fn release<N: StoreName, R: Wait>(&mut self, rt: &R, store: &Store<N>)
        requires { self.old.store ≡ store.now.table }
        ensures { self.new.store ≡ store.now.table }
    {
        if let Some(name) = self.names.pop_front() {
            self.pass.known();
            store.release(rt, &mut self.pass, name);
        }
    }

    /// Holds the first name once more, and puts it last twice.
    pub(crate) fn hold<N: StoreName, R: Wait>(
        &mut self,
        rt: &R,
        store: &Store<N>,
    ) -> Result<(), AllocError>
        requires { self.old.store ≡ store.now.table }
        ensures { self.new.store ≡ store.now.table }
    {
        self.names.reserve(2)?;
        if let Some(name) = self.names.pop_front() {
            self.pass.known();
            store.hold(rt, &mut self.pass, name);
            self.names.push_back(name)?;
            self.names.push_back(name)?;
        }
        Ok(())
    }

    /// The code of the first name, which is put last.
    pub(crate) fn read<N: StoreName, R: Wait>(
        &mut self,
        rt: &R,
        store: &Store<N>,
    ) -> Result<Option<Code>, AllocError>
        requires { self.old.store ≡ store.now.table }
        ensures { self.new.store ≡ store.now.table }
    {
        match self.names.pop_front() {
            Some(name) => {
                let code = store.read(rt, &mut self.pass, name);
                self.names.push_back(name)?;
                Ok(Some(code))
            }
            None => Ok(None),
        }
    }

    /// Gives the first name to another pass, which puts it last.
    pub(crate) fn give<N: StoreName, R: Wait>(
        &mut self,
        rt: &R,
        store: &Store<N>,
        to: &mut Holder,
    ) -> Result<(), AllocError>
        requires { (self.old.store ≡ store.now.table) × (to.old.store ≡ store.now.table) }
        ensures { (self.new.store ≡ store.now.table) × (to.new.store ≡ store.now.table) }
    {
        if let Some(name) = self.names.pop_front() {
            self.pass.known();
            store.give(rt, &mut self.pass, &mut to.pass, name);
            to.names.push_back(name)?;
        }
        Ok(())
    }

    /// The two passes meet.
    pub(crate) fn meet<N: StoreName>(&mut self, store: &Store<N>, other: &mut Holder)
        requires { (self.old.store ≡ store.now.table) × (other.old.store ≡ store.now.table) }
        ensures { (self.new.store ≡ store.now.table) × (other.new.store ≡ store.now.table) }
    {
        store.meet(&mut self.pass, &mut other.pass);
    }
}

/// Closes a store of one pass. `None` where the pass has another number than 0.
pub(crate) fn close_one<N: StoreName>(
    alloc: Global,
    store: Store<N>,
    pass: Pass,
) -> Result<Option<u64>, AllocError>
    requires size { store.passes ≡ 1 }
    requires pass { pass.store ≡ store.table }
{
    if pass.number() != 0 {
        return Ok(None);
    }
    let mut passes = Vec::new(alloc);
    passes.push(pass)?;
    Ok(Some(store.close(passes)))
}

/// Closes a store of two passes. `None` where their numbers are not 0 and 1.
pub(crate) fn close_two<N: StoreName>(
    alloc: Global,
    store: Store<N>,
    first: Pass,
    second: Pass,
) -> Result<Option<u64>, AllocError>
    requires size { store.passes ≡ 2 }
    requires first { first.store ≡ store.table }
    requires second { second.store ≡ store.table }
{
    if first.number() != 0 || second.number() != 1 {
        return Ok(None);
    }
    let mut passes = Vec::new(alloc);
    passes.push(first)?;
    passes.push(second)?;
    Ok(Some(store.close(passes)))
}
