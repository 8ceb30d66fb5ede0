//! The passes of a store: dealt out to workers and to the stripes of a memo, and brought home to close it.

ghost use Rattle.std.specs.Prelude.{◌≡◌, ◌+◌, ◌<◌, ◌≤◌, ◌++◌, ◌⊎◌, [], All, vec_len, vec_capacity};
ghost use Rattle.bs_store.specs.Closing.{AllNumbers, IsOf};

use bs_store::{Pass, Store, StoreName};

/// The most stripes of a memo.
const MEMO_STRIPES: usize = 16;

/// How many stripes a memo of so many entries has: 1 where it has no entry.
pub(crate) fn memo_stripes(entries: usize) -> usize
    ensures some { 0 < result }
    ensures few { result ≤ 16 }
    ensures room { (entries ≡ 0) ⊎ (result ≤ entries) }
{
    entries.clamp(1, MEMO_STRIPES)
}

/// Closes the store, whose passes are in two lists. All of them have room at home.
pub(crate) fn close_store<N: StoreName>(
    store: Store<N>,
    home: Vec<Pass>,
    of_workers: Vec<Pass>,
    of_memo: Vec<Pass>,
)
    requires home { home.items ≡ [] }
    requires room { vec_len of_workers + vec_len of_memo ≤ vec_capacity home }
    requires own { All (IsOf store.table) (of_workers.items ++ of_memo.items) }
    requires all { AllNumbers store.passes (of_workers.items ++ of_memo.items) }
{
    let mut home = home;
    move_all(&mut home, of_workers);
    move_all(&mut home, of_memo);
    store.close(home);
}

/// Puts the passes behind those that are there. Takes no memory.
fn move_all(home: &mut Vec<Pass>, passes: Vec<Pass>)
    requires { vec_len home.old + vec_len passes ≤ vec_capacity home.old }
    ensures items { home.new.items ≡ home.old.items ++ passes.items }
    ensures capacity { vec_capacity home.new ≡ vec_capacity home.old }
{
    'passes: for pass in passes {
        home.push_reserved(pass);
    }
}
