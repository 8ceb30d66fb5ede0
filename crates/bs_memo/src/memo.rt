//! The table of remembered values: stripes behind locks. Contracts see the numbers of its passes in their places, and its
//! capacity.
ghost use Rattle.std.specs.Prelude.{◌≡◌, ◌<◌, ◌≤◌, ◌+◌, ◌⊎◌, [], max, All, IfOk, IfErr, length, vec_len};
ghost use Rattle.std.specs.Vec.{vec_capacity};
ghost use Rattle.std.specs.NonZero.{non_zero_usize_get};
ghost use Rattle.lru.specs.LruCache.{lru_cache};
ghost use Rattle.bs_store.specs.Closing.{numbers_of};
ghost use Rattle.bs_memo.specs.Stripes.{share_of, AreRooms, IsEmptyOf};

use crate::key::MemoKey;
use crate::stripe::{MemoName, MemoStripe};
use bs_frac::Coef;
use bs_store::Pass;
use bs_tableau::Tableau;
use lru::LruCache;
use std::alloc::{AllocError, Global};
use std::collections::VecDeque;
use std::marker::{Model, PhantomData};
use std::num::NonZeroUsize;
use std::sync::Mutex;

/// Room for the passes that come home. It lies under a lock of its own, since a pass is not shared between threads.
/// Contracts see for how many there is room.
#[derive(Drop)]
pub(crate) struct Home {
    pub(crate) room: usize,
    pub(crate) passes: Vec<Pass>,
}

impl Model for Home {
    ghost use Rattle.std.specs.Prelude.{◌≡◌, ◌≤◌, [], ℕ};
    ghost use Rattle.std.specs.Vec.{vec_capacity};

    ghost Value = { ℕ };

    ghost view = { λ h. h.room };

    ghost invariant = { λ h. (h.passes.items ≡ []) × (h.room ≤ vec_capacity h.passes) };
}

/// Remembered values of series over one list of tableaux, at trees of one store.
#[derive(Drop)]
pub struct Memo<'t, N: MemoName> {
    pub(crate) tables: &'t [Tableau],
    pub(crate) stripes: Vec<Mutex<MemoStripe<N>>>,
    pub(crate) numbers: Vec<usize>,
    pub(crate) home: Mutex<Home>,
    pub(crate) capacity: usize,
}

impl<'t, N: MemoName> Model for Memo<'t, N> {
    ghost use Rattle.std.specs.Prelude.{◌≡◌, ◌<◌, ◌≤◌, ◌⊎◌, vec_len};
    ghost use Rattle.bs_memo.specs.Stripes.{OfMemo};

    ghost Value = { OfMemo };

    ghost view = { λ m. record { numbers = m.numbers.items; capacity = m.capacity } };

    ghost invariant = { λ m. (m.tables.now ≡ N.tables) × (vec_len m.stripes ≡ vec_len m.numbers) × (0 < vec_len m.numbers) × (vec_len m.numbers ≤ 256) × ((m.capacity ≡ 0) ⊎ (vec_len m.numbers ≤ m.capacity)) };
}

/// No memory for a memo, and its passes back.
#[derive(Drop)]
pub struct MemoRefused {
    pub passes: Vec<Pass>,
    pub fault: AllocError,
}

/// All memory of a memo, before it has its passes.
#[derive(Drop)]
struct Space<N: MemoName> {
    caches: VecDeque<LruCache<MemoKey, Coef>>,
    numbers: Vec<usize>,
    stripes: Vec<Mutex<MemoStripe<N>>>,
    home: Vec<Pass>,
}

/// The part of a capacity that one of so many stripes has: one more for the first ones, where it does not go up.
pub(crate) fn share(capacity: usize, place: usize, stripes: usize) -> usize
    requires { 0 < stripes }
    ensures { result ≡ share_of capacity place stripes }
{
    if place < capacity % stripes {
        capacity / stripes + 1
    } else {
        capacity / stripes
    }
}

/// The room of a table of this capacity: 1 where it is 0.
fn room_for(capacity: usize) -> NonZeroUsize
    ensures { non_zero_usize_get result ≡ max 1 capacity }
{
    match NonZeroUsize::new(capacity) {
        Some(room) => room,
        None => NonZeroUsize::MIN,
    }
}

/// An empty table for each stripe.
fn make_caches(
    alloc: Global,
    capacity: usize,
    stripes: usize,
) -> Result<VecDeque<LruCache<MemoKey, Coef>>, AllocError>
    requires { 0 < stripes }
    ensures len { IfOk result (λ q. length q.items ≡ stripes) }
    ensures rooms { IfOk result (λ q. AreRooms capacity 0 stripes q.items) }
{
    let mut caches = VecDeque::with_capacity(alloc, stripes)?;
    'stripes: for place in 0..stripes {
        let room = room_for(share(capacity, place, stripes));
        caches.push_back(LruCache::sparse(alloc, room)?)?;
    }
    Ok(caches)
}

/// All memory of a memo of so many stripes.
fn make_space<N: MemoName>(
    alloc: Global,
    capacity: usize,
    stripes: usize,
) -> Result<Space<N>, AllocError>
    requires { 0 < stripes }
    ensures caches { IfOk result (λ s. length s.caches.items ≡ stripes) }
    ensures rooms { IfOk result (λ s. AreRooms capacity 0 stripes s.caches.items) }
    ensures numbers { IfOk result (λ s. (s.numbers.items ≡ []) × (stripes ≤ vec_capacity s.numbers)) }
    ensures stripes { IfOk result (λ s. (vec_len s.stripes ≡ 0) × (stripes ≤ vec_capacity s.stripes)) }
    ensures home { IfOk result (λ s. (s.home.items ≡ []) × (stripes ≤ vec_capacity s.home)) }
{
    let caches = make_caches(alloc, capacity, stripes)?;
    let numbers = Vec::with_capacity(alloc, stripes)?;
    let locks = Vec::with_capacity(alloc, stripes)?;
    let home = Vec::with_capacity(alloc, stripes)?;
    Ok(Space {
        caches,
        numbers,
        stripes: locks,
        home,
    })
}

/// A stripe with no entry.
fn new_stripe<N: MemoName>(
    number: usize,
    stripes: usize,
    capacity: usize,
    cache: LruCache<MemoKey, Coef>,
    pass: Pass,
) -> MemoStripe<N>
    requires cache { cache ≡ lru_cache [] (max 1 capacity) }
    requires pass { IsEmptyOf N.table pass }
{
    MemoStripe {
        number,
        stripes,
        capacity,
        cache,
        found: 0,
        pass,
        name: PhantomData,
    }
}

/// Gives each pass its stripe. Takes no memory.
fn fill<'t, N: MemoName>(
    tables: &'t [Tableau],
    space: Space<N>,
    passes: Vec<Pass>,
    capacity: usize,
) -> Memo<'t, N>
    requires tables { tables.now ≡ N.tables }
    requires some { (0 < vec_len passes) × (vec_len passes ≤ 256) }
    requires empty { All (IsEmptyOf N.table) passes.items }
    requires room { (capacity ≡ 0) ⊎ (vec_len passes ≤ capacity) }
    requires caches { (length space.caches.items ≡ vec_len passes) × AreRooms capacity 0 (vec_len passes) space.caches.items }
    requires numbers { (space.numbers.items ≡ []) × (vec_len passes ≤ vec_capacity space.numbers) }
    requires stripes { (vec_len space.stripes ≡ 0) × (vec_len passes ≤ vec_capacity space.stripes) }
    requires home { (space.home.items ≡ []) × (vec_len passes ≤ vec_capacity space.home) }
    ensures { result ≡ record { numbers = numbers_of passes.items; capacity = capacity } }
{
    let Space {
        mut caches,
        mut numbers,
        mut stripes,
        home,
    } = space;
    let count = passes.len();
    let mut place = 0;
    'passes: for pass in passes {
        let Some(cache) = caches.pop_front() else {
            unreachable!()
        };
        numbers.push_reserved(pass.number());
        let part = share(capacity, place, count);
        stripes.push_reserved(Mutex::new(new_stripe(place, count, part, cache, pass)));
        place += 1;
    }
    let home = Home {
        room: count,
        passes: home,
    };
    Memo {
        tables,
        stripes,
        numbers,
        home: Mutex::new(home),
        capacity,
    }
}

impl<'t, N: MemoName> Memo<'t, N> {
    /// A memo with no entry, a stripe for each pass, which together have the capacity. A refusal hands the passes back as
    /// they were. It reserves what `close` hands back.
    pub fn new(
        alloc: Global,
        tables: &'t [Tableau],
        passes: Vec<Pass>,
        capacity: usize,
    ) -> Result<Memo<'t, N>, MemoRefused>
        requires tables { tables.now ≡ N.tables }
        requires some { (0 < vec_len passes) × (vec_len passes ≤ 256) }
        requires empty { All (IsEmptyOf N.table) passes.items }
        requires room { (capacity ≡ 0) ⊎ (vec_len passes ≤ capacity) }
        ensures ok { IfOk result (λ memo. memo ≡ record { numbers = numbers_of passes.items; capacity = capacity }) }
        ensures refused { IfErr result (λ refused. refused.passes.items ≡ passes.items) }
    {
        match make_space(alloc, capacity, passes.len()) {
            Ok(space) => Ok(fill(tables, space, passes, capacity)),
            Err(fault) => Err(MemoRefused { passes, fault }),
        }
    }

    /// How many entries its stripes have room for, all together. Takes no memory.
    pub fn capacity(&self) -> usize
        ensures { result ≡ self.now.capacity }
    {
        self.capacity
    }

    /// The tableaux that its values are over.
    pub fn tables(&self) -> &'t [Tableau]
        ensures { result.now ≡ N.tables }
    {
        self.tables
    }
}
