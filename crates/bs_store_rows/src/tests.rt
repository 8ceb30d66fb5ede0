//! Worked rows: passes that meet, read and give, two threads at work, and subtrees that are shared.
ghost use Rattle.std.specs.Prelude.{◌≡◌, vec_len};
ghost use Rattle.bs_store.specs.Seats.{NewPasses};

use crate::holder::{Holder, close_one, close_two};
use bs_store::{Pass, Store, StoreName, StoreParts};
use bs_tree::Code;
use std::alloc::{AllocError, Global};
use std::marker::Brand;
use std::process::Abort;
use std::sync::Wait;
use std::test::Fail;
use std::thread::{Threads, join};

/// The levels of the 20 trees of six nodes.
const TREES: [[u8; 6]; 20] = [
    [1, 2, 3, 4, 5, 6],
    [1, 2, 3, 4, 5, 5],
    [1, 2, 3, 4, 5, 4],
    [1, 2, 3, 4, 5, 3],
    [1, 2, 3, 4, 5, 2],
    [1, 2, 3, 4, 4, 4],
    [1, 2, 3, 4, 4, 3],
    [1, 2, 3, 4, 4, 2],
    [1, 2, 3, 4, 3, 4],
    [1, 2, 3, 4, 3, 3],
    [1, 2, 3, 4, 3, 2],
    [1, 2, 3, 4, 2, 3],
    [1, 2, 3, 4, 2, 2],
    [1, 2, 3, 3, 3, 3],
    [1, 2, 3, 3, 3, 2],
    [1, 2, 3, 3, 2, 3],
    [1, 2, 3, 3, 2, 2],
    [1, 2, 3, 2, 3, 2],
    [1, 2, 3, 2, 2, 2],
    [1, 2, 2, 2, 2, 2],
];

/// The tree of these levels, of one colour.
fn tree(alloc: Global, levels: &[u8]) -> Result<Code, Fail> {
    let mut pairs = Vec::new(alloc);
    for level in levels {
        pairs.push((*level, 0u8))?;
    }
    Ok(Code::of_pairs(pairs.as_slice()).ok_or("a tree")?)
}

/// The 20 trees.
fn trees(alloc: Global) -> Result<Vec<Code>, Fail> {
    let mut codes = Vec::new(alloc);
    for levels in &TREES {
        codes.push(tree(alloc, levels)?)?;
    }
    Ok(codes)
}

/// Interns the trees, and gives them back.
fn intern_and_release<N: StoreName, R: Wait>(
    rt: &R,
    store: &Store<N>,
    holder: &mut Holder,
    codes: &[Code],
) -> Result<(), AllocError>
    requires { holder.old.store ≡ store.now.table }
    ensures { holder.new.store ≡ store.now.table }
{
    'interns: for code in codes {
        let _name = holder.intern(rt, store, code)?;
    }
    'releases: for _ in codes {
        holder.release(rt, store);
    }
    Ok(())
}

/// How often a thread does that.
const ROUNDS: u32 = 100;

/// The same a hundred times.
fn many_rounds<N: StoreName, R: Wait>(
    rt: &R,
    store: &Store<N>,
    holder: &mut Holder,
    codes: &[Code],
) -> Result<(), AllocError>
    requires { holder.old.store ≡ store.now.table }
    ensures { holder.new.store ≡ store.now.table }
{
    'rounds: for _ in 0..ROUNDS {
        intern_and_release(rt, store, holder, codes)?;
    }
    Ok(())
}

/// The same in a thread, and whether memory was left.
fn works<N: StoreName, R: Wait>(
    rt: &R,
    store: &Store<N>,
    mut holder: Holder,
    codes: &[Code],
) -> (Holder, bool)
    requires { holder.store ≡ store.now.table }
    ensures { result.0.store ≡ store.now.table }
{
    let done = many_rounds(rt, store, &mut holder, codes).is_ok();
    (holder, done)
}

/// Two passes of a store of four stripes.
fn meet_read_give<N: StoreName, R: Wait + Abort>(
    rt: &R,
    alloc: Global,
    parts: StoreParts,
    mut passes: Vec<Pass>,
) -> Result<(), Fail>
    requires name { parts.table ≡ N.table }
    requires size { parts.passes ≡ 2 }
    requires passes { (vec_len passes ≡ 2) × NewPasses parts.table passes.items }
{
    let store = Store::<N>::open(parts)?;
    let (Some(second), Some(first)) = (passes.pop(), passes.pop()) else {
        return Ok(());
    };
    let mut p = Holder::new(alloc, first);
    let mut q = Holder::new(alloc, second);
    let written = tree(alloc, &[1, 2, 2, 3])?;
    let canonical = tree(alloc, &[1, 2, 3, 2])?;
    let n = p.intern(rt, &store, &written)?;
    let m = q.intern(rt, &store, &canonical)?;
    p.meet(&store, &mut q);
    assert!(rt; n == m);
    assert!(rt; p.read(rt, &store)? == Some(canonical));
    assert!(rt; q.read(rt, &store)? == Some(canonical));
    p.give(rt, &store, &mut q)?;
    q.hold(rt, &store)?;
    q.release(rt, &store);
    q.release(rt, &store);
    q.release(rt, &store);
    let live = close_two(alloc, store, p.into_pass(), q.into_pass())?;
    assert!(rt; live == Some(0));
    Ok(())
}

#[test]
fn two_passes_meet(rt: HostRuntime) -> Result<(), Fail> {
    let (parts, passes) = StoreParts::new(rt.alloc(), 4, 2)?;
    meet_read_give::<Brand, _>(&rt, rt.alloc(), parts, passes)
}

/// Two threads with a pass each.
fn two_at_work<N: StoreName + Send + Sync, R: Threads + Wait + Abort + Sync>(
    rt: &R,
    alloc: Global,
    parts: StoreParts,
    mut passes: Vec<Pass>,
) -> Result<(), Fail>
    requires name { parts.table ≡ N.table }
    requires size { parts.passes ≡ 2 }
    requires passes { (vec_len passes ≡ 2) × NewPasses parts.table passes.items }
{
    let store = Store::<N>::open(parts)?;
    let (Some(second), Some(first)) = (passes.pop(), passes.pop()) else {
        return Err("no passes")?;
    };
    let codes = trees(alloc)?;
    assert_eq!(rt; codes.len(), 20);
    let a = Holder::new(alloc, first);
    let b = Holder::new(alloc, second);
    let (a, b) = both(rt, &store, a, b, &codes);
    let (mut a, first_done) = a;
    let (mut b, second_done) = b;
    assert!(rt; first_done && second_done);
    a.meet(&store, &mut b);
    let live = close_two(alloc, store, a.into_pass(), b.into_pass())?;
    assert!(rt; live == Some(0));
    Ok(())
}

/// Both at once.
fn both<N: StoreName + Send + Sync, R: Threads + Wait + Sync>(
    rt: &R,
    store: &Store<N>,
    a: Holder,
    b: Holder,
    codes: &[Code],
) -> ((Holder, bool), (Holder, bool))
    requires first { a.store ≡ store.now.table }
    requires second { b.store ≡ store.now.table }
    ensures { (result.0.0.store ≡ store.now.table) × (result.1.0.store ≡ store.now.table) }
{
    join(
        rt,
        move ||
            requires { a.store ≡ store.now.table }
            ensures { result.0.store ≡ store.entry.now.table }
        { works(rt, store, a, codes) },
        move ||
            requires { b.store ≡ store.now.table }
            ensures { result.0.store ≡ store.entry.now.table }
        { works(rt, store, b, codes) },
    )
}

#[test]
fn two_threads_leave_nothing(rt: HostRuntime) -> Result<(), Fail> {
    let (parts, passes) = StoreParts::new(rt.alloc(), 4, 2)?;
    two_at_work::<Brand, _>(&rt, rt.alloc(), parts, passes)
}

/// A pass of a store of one stripe, closed after so many of four steps.
fn shared_subtrees<N: StoreName, R: Wait + Abort>(
    rt: &R,
    alloc: Global,
    parts: StoreParts,
    mut passes: Vec<Pass>,
    steps: u8,
    want: u64,
) -> Result<(), Fail>
    requires name { parts.table ≡ N.table }
    requires size { parts.passes ≡ 1 }
    requires passes { (vec_len passes ≡ 1) × NewPasses parts.table passes.items }
{
    let store = Store::<N>::open(parts)?;
    let Some(first) = passes.pop() else {
        return Ok(());
    };
    let mut holder = Holder::new(alloc, first);
    let name = holder.intern(rt, &store, &tree(alloc, &[1, 2, 3, 2])?)?;
    assert_eq!(rt; name.slot, 2);
    if steps > 1 {
        let name = holder.intern(rt, &store, &tree(alloc, &[1, 2, 2, 2])?)?;
        assert_eq!(rt; name.slot, 3);
    }
    if steps > 2 {
        holder.release(rt, &store);
    }
    if steps > 3 {
        holder.release(rt, &store);
    }
    let live = close_one(alloc, store, holder.into_pass())?;
    assert!(rt; live == Some(want));
    Ok(())
}

#[test]
fn subtrees_are_shared(rt: HostRuntime) -> Result<(), Fail> {
    for (steps, want) in [(1u8, 3u64), (2, 4), (3, 2), (4, 0)] {
        let (parts, passes) = StoreParts::new(rt.alloc(), 1, 1)?;
        shared_subtrees::<Brand, _>(&rt, rt.alloc(), parts, passes, steps, want)?;
    }
    Ok(())
}

/// The first leaf of a new store.
fn first_leaf<N: StoreName, R: Wait + Abort>(
    rt: &R,
    alloc: Global,
    parts: StoreParts,
    mut passes: Vec<Pass>,
) -> Result<(), Fail>
    requires name { parts.table ≡ N.table }
    requires size { parts.passes ≡ 1 }
    requires passes { (vec_len passes ≡ 1) × NewPasses parts.table passes.items }
{
    let store = Store::<N>::open(parts)?;
    let Some(first) = passes.pop() else {
        return Ok(());
    };
    let mut holder = Holder::new(alloc, first);
    let name = holder.intern(rt, &store, &tree(alloc, &[1])?)?;
    assert_eq!(rt; name.slot, 0);
    let live = close_one(alloc, store, holder.into_pass())?;
    assert!(rt; live == Some(1));
    Ok(())
}

#[test]
fn the_first_leaf_has_slot_0(rt: HostRuntime) -> Result<(), Fail> {
    let (parts, passes) = StoreParts::new(rt.alloc(), 256, 1)?;
    first_leaf::<Brand, _>(&rt, rt.alloc(), parts, passes)
}
