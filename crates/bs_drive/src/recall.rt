//! What a memo remembers of a session's coefficients. A look or a keep interns the tree, and gives it back.
ghost use Rattle.std.specs.Prelude.{◌≡◌, ◌<◌, ◌≤◌, length, IfOk, IfSome};
ghost use Rattle.bs_series.specs.Expressions.{series_at};
ghost use Rattle.bs_series.specs.SeriesCode.{written_at};
ghost use Rattle.bs_store.specs.Walks.{SamePass, Same};

use crate::trees::{intern, release};
use bs_core::Name;
use bs_frac::Coef;
use bs_memo::laws::keys_tell_series;
use bs_memo::{Memo, MemoKey, MemoName};
use bs_series::{Book, SeriesId};
use bs_store::{Pass, Store};
use bs_tree::Code;
use std::alloc::{AllocError, Global};
use std::sync::Wait;

/// The value of a series at a tree, where the memo has it.
pub(crate) fn recall<N: MemoName, R: Wait>(
    rt: &R,
    alloc: Global,
    store: &Store<N>,
    memo: &Memo<'_, N>,
    pass: &mut Pass,
    book: &Book,
    series: SeriesId,
    code: &Code,
) -> Result<Option<Coef>, AllocError>
    requires own { pass.old.store ≡ store.now.table }
    requires known { series < length book.now }
    ensures value { IfOk result (λ found. IfSome found (λ v. v ≡ written_at N.tables (series_at book.now series) code.now)) }
    ensures same { SamePass pass.old pass.new }
    ensures pairs { Same pass.old.held pass.new.held }
    ensures gains { pass.old.gains ≤ pass.new.gains }
{
    if memo.capacity() == 0 {
        return Ok(None);
    }
    let mut key = MemoKey::new(alloc, book, series, Name::default())?;
    let tree = intern(rt, store, pass, code)?;
    key.set_name(tree.name);
    pass.known();
    let found = memo.look(rt, store, pass, &key);
    release(rt, store, pass, tree);
    Ok(found)
}

/// Keeps the value of a series at a tree in the memo, where that has room at all.
pub(crate) fn remember<N: MemoName, R: Wait>(
    rt: &R,
    alloc: Global,
    store: &Store<N>,
    memo: &Memo<'_, N>,
    pass: &mut Pass,
    book: &Book,
    series: SeriesId,
    code: &Code,
    coef: Coef,
) -> Result<(), AllocError>
    requires own { pass.old.store ≡ store.now.table }
    requires known { series < length book.now }
    requires value { coef ≡ written_at N.tables (series_at book.now series) code.now }
    ensures same { SamePass pass.old pass.new }
    ensures pairs { Same pass.old.held pass.new.held }
    ensures gains { pass.old.gains ≤ pass.new.gains }
{
    if memo.capacity() == 0 {
        return Ok(());
    }
    let mut key = MemoKey::new(alloc, book, series, Name::default())?;
    let tree = intern(rt, store, pass, code)?;
    key.set_name(tree.name);
    pass.known();
    keys_tell_series();
    let kept = memo.keep(rt, store, pass, &key, coef);
    release(rt, store, pass, tree);
    kept?;
    Ok(())
}
