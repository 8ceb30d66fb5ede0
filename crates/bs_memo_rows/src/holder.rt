//! A pass with the names that it holds, in order. It keeps values of the first method at their trees, and looks them up.
ghost use Rattle.std.specs.Prelude.{◌≡◌, ◌<◌, OnOk};
ghost use Rattle.bs_core.specs.Machine.{times};
ghost use Rattle.bs_store.specs.Walks.{Same, SamePass};
ghost use Rattle.bs_memo_rows.specs.Methods.{IsOfMethod};

use crate::values::value_at;
use bs_core::Name;
use bs_frac::Coef;
use bs_memo::laws::keys_tell_series;
use bs_memo::{Kept, Memo, MemoKey, MemoName};
use bs_store::{Pass, Store, StoreName};
use bs_tree::Code;
use std::alloc::{AllocError, Global};
use std::collections::VecDeque;
use std::marker::Model;
use std::sync::Wait;

/// A pass, and names that it holds. Contracts see the pass.
#[derive(Drop)]
pub(crate) struct Holder {
    pass: Pass,
    names: VecDeque<Name>,
}

impl Model for Holder {
    ghost use Rattle.bs_store.specs.Seats.{OfPass};
    ghost use Rattle.bs_store.specs.Walks.{Keeps};

    ghost Value = { OfPass };

    ghost view = { λ h. h.pass };

    ghost invariant = { λ h. Keeps h.names.items h.pass.held };
}

/// Keeps the value of the first method at the tree of the key's name. Nothing where the method has no such colours.
fn keep_value<N: MemoName, R: Wait>(
    rt: &R,
    store: &Store<N>,
    memo: &Memo<'_, N>,
    pass: &mut Pass,
    key: &MemoKey,
) -> Result<Option<Kept>, AllocError>
    requires own { pass.old.store ≡ store.now.table }
    requires held { 0 < times key.now.name pass.old.held }
    requires method { IsOfMethod key.now.series }
    ensures same { SamePass pass.old pass.new }
    ensures pairs { Same pass.old.held pass.new.held }
{
    let code = store.read(rt, pass, key.name());
    let Some(coef) = value_at(memo.tables(), &code) else {
        return Ok(None);
    };
    keys_tell_series();
    let kept = memo.keep(rt, store, pass, key, coef)?;
    Ok(Some(kept))
}

impl Holder {
    /// A pass with no name yet.
    pub(crate) fn new(alloc: Global, pass: Pass) -> Holder
        ensures { result.store ≡ pass.store }
    {
        Holder {
            pass,
            names: VecDeque::new(alloc),
        }
    }

    /// The pass.
    pub(crate) fn into_pass(self) -> Pass
        ensures { result.store ≡ self.store }
    {
        let Holder { pass, names: _ } = self;
        pass
    }

    /// Interns the tree, and puts its name last.
    pub(crate) fn intern<N: StoreName, R: Wait>(
        &mut self,
        rt: &R,
        store: &Store<N>,
        code: &Code,
    ) -> Result<Name, AllocError>
        requires { self.old.store ≡ store.now.table }
        ensures { self.new.store ≡ store.now.table }
    {
        let name = store.intern(rt, &mut self.pass, code)?;
        self.names.push_back(name)?;
        Ok(name)
    }

    /// Gives the first name back.
    pub(crate) fn release<N: StoreName, R: Wait>(&mut self, rt: &R, store: &Store<N>)
        requires { self.old.store ≡ store.now.table }
        ensures { self.new.store ≡ store.now.table }
    {
        if let Some(name) = self.names.pop_front() {
            self.pass.known();
            store.release(rt, &mut self.pass, name);
        }
    }

    /// Keeps the value of the first method at the tree of the first name, which is put last.
    pub(crate) fn keep<N: MemoName, R: Wait>(
        &mut self,
        rt: &R,
        store: &Store<N>,
        memo: &Memo<'_, N>,
        key: &mut MemoKey,
    ) -> Result<Option<Kept>, AllocError>
        requires own { self.old.store ≡ store.now.table }
        requires method { IsOfMethod key.old.series }
        ensures own { self.new.store ≡ store.now.table }
        ensures method { key.new.series ≡ key.old.series }
    {
        match self.names.pop_front() {
            Some(name) => {
                key.set_name(name);
                let kept = keep_value(rt, store, memo, &mut self.pass, key)?;
                self.names.push_back(name)?;
                Ok(kept)
            }
            None => Ok(None),
        }
    }

    /// The value that is kept at the tree of the first name, which is put last.
    pub(crate) fn look<N: MemoName, R: Wait>(
        &mut self,
        rt: &R,
        store: &Store<N>,
        memo: &Memo<'_, N>,
        key: &mut MemoKey,
    ) -> Result<Option<Coef>, AllocError>
        requires { self.old.store ≡ store.now.table }
        ensures own { self.new.store ≡ store.now.table }
        ensures method { key.new.series ≡ key.old.series }
    {
        match self.names.pop_front() {
            Some(name) => {
                key.set_name(name);
                let found = memo.look(rt, store, &mut self.pass, key);
                self.names.push_back(name)?;
                Ok(found)
            }
            None => Ok(None),
        }
    }
}

/// Closes a store of two passes. `None` where their numbers are not 0 and 1.
pub(crate) fn close_two<N: StoreName>(
    alloc: Global,
    store: Store<N>,
    first: Pass,
    second: Pass,
) -> Result<Option<u64>, AllocError>
    requires size { store.passes ≡ 2 }
    requires first { first.store ≡ store.table }
    requires second { second.store ≡ store.table }
{
    if first.number() != 0 || second.number() != 1 {
        return Ok(None);
    }
    let mut passes = Vec::new(alloc);
    passes.push(first)?;
    passes.push(second)?;
    Ok(Some(store.close(passes)))
}
