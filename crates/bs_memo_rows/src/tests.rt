//! Worked rows: what leaves a full table, and a table with no room.
ghost use Rattle.std.specs.Prelude.{◌≡◌, [], vec_len};
ghost use Rattle.bs_store.specs.Seats.{NewPasses};

use crate::holder::{Holder, close_two};
use crate::values::{euler, method_key};
use bs_frac::{Coef, Frac};
use bs_memo::{Kept, Memo, MemoName};
use bs_store::{Pass, Store, StoreParts};
use bs_tableau::Tableau;
use bs_tree::Code;
use std::alloc::Global;
use std::marker::Brand;
use std::sync::Wait;
use std::test::Fail;

/// The tree of these pairs of a level and a colour.
fn tree(pairs: &[(u8, u8)]) -> Result<Code, Fail> {
    Ok(Code::of_pairs(pairs).ok_or("no tree")?)
}

/// What a memo does with the values of Euler's method at the trees of one node and of two, and how many entries the store has at the
/// end.
#[derive(Clone, Copy)]
struct Outcome {
    first_kept: Option<Kept>,
    second_kept: Option<Kept>,
    first_found: Option<Coef>,
    second_found: Option<Coef>,
    live: Option<u64>,
}

/// A memo of so many entries, with one pass of a store of one stripe and two passes.
fn kept_and_looked<N: MemoName, R: Wait>(
    rt: &R,
    alloc: Global,
    parts: StoreParts,
    mut passes: Vec<Pass>,
    tables: &[Tableau],
    capacity: usize,
) -> Result<Outcome, Fail>
    requires name { parts.table ≡ N.table }
    requires size { parts.passes ≡ 2 }
    requires passes { (vec_len passes ≡ 2) × NewPasses parts.table passes.items }
    requires tables { tables.now ≡ N.tables }
{
    let store = Store::<N>::open(parts)?;
    let (Some(second), Some(first)) = (passes.pop(), passes.pop()) else {
        return Err("no passes")?;
    };
    let mut p = Holder::new(alloc, first);
    let memo = memo_of_one::<N>(alloc, tables, second, capacity)?;
    let name = p.intern(rt, &store, &tree(&[(1, 0)])?)?;
    let _second_name = p.intern(rt, &store, &tree(&[(1, 0), (2, 0)])?)?;
    let mut key = method_key(alloc, tables, name)?;
    let first_kept = p.keep(rt, &store, &memo, &mut key)?;
    let second_kept = p.keep(rt, &store, &memo, &mut key)?;
    let first_found = p.look(rt, &store, &memo, &mut key)?;
    let second_found = p.look(rt, &store, &memo, &mut key)?;
    p.release(rt, &store);
    p.release(rt, &store);
    let Some(q) = memo.close(rt, &store).pop() else {
        return Err("no pass came home")?;
    };
    let live = close_two(alloc, store, p.into_pass(), q)?;
    Ok(Outcome {
        first_kept,
        second_kept,
        first_found,
        second_found,
        live,
    })
}

/// Takes what threads may share.
fn shares<X: Sync>(_shared: &X) {}

/// Threads may share a memo.
fn shares_a_memo<N: MemoName + Send + Sync>(memo: &Memo<'_, N>) {
    shares(memo);
}

/// A memo of one stripe.
fn memo_of_one<'t, N: MemoName>(
    alloc: Global,
    tables: &'t [Tableau],
    pass: Pass,
    capacity: usize,
) -> Result<Memo<'t, N>, Fail>
    requires tables { tables.now ≡ N.tables }
    requires pass { (pass.store ≡ N.table) × (pass.held ≡ []) }
{
    let mut passes = Vec::new(alloc);
    passes.push(pass)?;
    match Memo::new(alloc, tables, passes, capacity) {
        Ok(memo) => Ok(memo),
        Err(_) => Err("no memory for a memo")?,
    }
}

#[test]
fn the_older_entry_leaves_a_full_table(rt: HostRuntime) -> Result<(), Fail> {
    let tables = euler(rt.alloc())?;
    let (parts, passes) = StoreParts::new(rt.alloc(), 1, 2)?;
    let seen = kept_and_looked::<Brand, _>(&rt, rt.alloc(), parts, passes, &tables, 1)?;
    assert!(rt; seen.first_kept == Some(Kept::Stored));
    assert!(rt; seen.second_kept == Some(Kept::Stored));
    assert!(rt; seen.first_found == None);
    assert!(rt; seen.second_found == Some(Coef::of(Frac::new(false, 0, 1))));
    assert!(rt; seen.live == Some(0));
    Ok(())
}

#[test]
fn a_table_with_no_room_keeps_nothing(rt: HostRuntime) -> Result<(), Fail> {
    let tables = euler(rt.alloc())?;
    let (parts, passes) = StoreParts::new(rt.alloc(), 1, 2)?;
    let seen = kept_and_looked::<Brand, _>(&rt, rt.alloc(), parts, passes, &tables, 0)?;
    assert!(rt; seen.first_kept == Some(Kept::Skipped));
    assert!(rt; seen.second_kept == Some(Kept::Skipped));
    assert!(rt; seen.first_found == None);
    assert!(rt; seen.second_found == None);
    assert!(rt; seen.live == Some(0));
    Ok(())
}
