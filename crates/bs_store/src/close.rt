//! How a store ends: all seats become one again, and what that one knows is counted.
ghost use Rattle.std.specs.Prelude.{◌≡◌, ◌<◌, ◌≤◌, ◌++◌, ◌⊎◌, [], All, map, min, vec_len, length};
ghost use Rattle.bs_core.specs.Machine.{most};
ghost use Rattle.bs_store.specs.Closing.{all_entries, all_gains, different, wanted, pass_lists, pass_hand, AllNumbers, IsOf};

use crate::pass::Pass;
use crate::room::{Room, StoreName};
use crate::store::Store;
use crate::view::{Board, Both, View};
use atomic_table::Seat;
use std::sync::Mutex;

/// One seat of all rooms, and how many entries they have; `u64::MAX` where there are more.
fn join_rooms<N: StoreName>(
    board: &Board,
    mut stripes: Vec<Mutex<Room<N>>>,
) -> (Seat<(), View>, u64)
    requires board { (board.now.shared.table_id ≡ N.table) × (0 < board.now.shared.table_id.words) }
    requires some { 0 < vec_len stripes }
    ensures seat { (result.0.table_id ≡ N.table) × (result.0.me.1 ≡ []) }
    ensures tables { (length result.0.me.0.tables ≡ vec_len stripes) × (result.1 ≡ min (all_entries result.0.me.0.tables) most) }
{
    let Some(first) = stripes.pop() else {
        unreachable!()
    };
    let (mut all, mut live) = first.into_inner().into_seat();
    'stripes: for stripe in stripes {
        let (seat, count) = stripe.into_inner().into_seat();
        board.shared.join_seat::<Both>(&mut all, seat);
        live = live.saturating_add(count);
    }
    (all, live)
}

/// This seat and those of all passes, in one.
fn join_passes(board: &Board, mut all: Seat<(), View>, passes: Vec<Pass>) -> Seat<(), View>
    requires board { (all.table_id ≡ board.now.shared.table_id) × (0 < board.now.shared.table_id.words) }
    requires own { All (IsOf board.now.shared.table_id) passes.items }
    ensures seat { (result.table_id ≡ all.table_id) × (result.me.0.tables ≡ all.me.0.tables) }
    ensures hands { result.me.0.hands ≡ all.me.0.hands ++ map pass_hand passes.items }
{
    'passes: for pass in passes {
        board.shared.join_seat::<Both>(&mut all, pass.into_seat());
    }
    all
}

impl<N: StoreName> Store<N> {
    /// The number of entries: of the different trees that are held, and of all their subtrees. Takes no memory.
    ///
    /// Where `u64::MAX` pairs or more were gained an entry may have stayed for good, and counts too.
    pub fn close(self, passes: Vec<Pass>) -> u64
        requires own { All (IsOf self.table) passes.items }
        requires all { AllNumbers self.passes passes.items }
        ensures exact { all_gains passes.items < most → result ≡ different (wanted (pass_lists passes.items)) }
        ensures least { (different (wanted (pass_lists passes.items)) ≤ result) ⊎ (result ≡ most) }
    {
        let Store {
            alloc: _,
            stripes,
            board,
            name: _,
        } = self;
        let (seat, live) = join_rooms(&board, stripes);
        let seat = join_passes(&board, seat, passes);
        board.close_with(seat).free();
        live
    }
}
