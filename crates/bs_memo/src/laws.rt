//! What a look and a keep do to the stripe that is lent to them.
ghost use Rattle.std.specs.Prelude.{◌≡◌, ◌<◌, ◌≤◌, ◌↔◌, IfSome, IfOk, OnOk, OnErr, MatchOption};
ghost use Rattle.std.specs.Map.{lookup};
ghost use Rattle.lru.specs.LruCache.{displaced, lru_cache, promoted, put_entries};
ghost use Rattle.bs_core.specs.Machine.{times, code_at, pair};
ghost use Rattle.bs_store.specs.Walks.{More, Same, SamePass};
ghost use Rattle.bs_memo.specs.Keys.{same_key};
ghost use Rattle.bs_memo.specs.Entries.{IsValueOf, KeysTellSeries};
ghost use Rattle.bs_memo.specs.Stripes.{SameStripe, with_entries, stripe_for, put};

use crate::key::MemoKey;
use crate::stripe::{Kept, MemoName, MemoStripe};
use bs_frac::Coef;
use bs_store::{Pass, Store};
use lru::LruCache;
use std::alloc::AllocError;
use std::sync::Wait;

/// The entry of the key is the first from then on.
fn bring_to_front(cache: &mut LruCache<MemoKey, Coef>, key: &MemoKey)
    ensures { cache.new ≡ lru_cache (promoted (same_key key.now) cache.old.entries) cache.old.cap }
{
    cache.promote(key);
}

/// Puts an entry first, and gives what left the table for it.
fn put_first(
    cache: &mut LruCache<MemoKey, Coef>,
    key: MemoKey,
    coef: Coef,
) -> Result<Option<(MemoKey, Coef)>, AllocError>
    ensures entries { OnOk result (cache.new ≡ lru_cache (put_entries same_key cache.old key coef) cache.old.cap) }
    ensures gone { IfOk result (λ gone. gone ≡ displaced same_key cache.old key coef) }
    ensures err { OnErr result (cache.new ≡ cache.old) }
{
    match cache.push(key, coef) {
        Ok(gone) => Ok(gone),
        Err(_) => Err(AllocError),
    }
}

/// The value of the key's series at the tree of its name, where the stripe has it. The entry is the most recently used
/// one from then on. Takes no memory, and waits for nobody.
pub fn look_in<N: MemoName>(
    store: &Store<N>,
    pass: &mut Pass,
    stripe: &mut MemoStripe<N>,
    key: &MemoKey,
) -> Option<Coef>
    requires own { pass.old.store ≡ store.now.table }
    requires held { 0 < times key.now.name pass.old.held }
    requires place { stripe_for stripe.old.stripes key.now.name ≡ stripe.old.number }
    ensures value { IfSome result (λ v. IsValueOf N.tables key.now.series (code_at key.now.name pass.old.held) v) }
    ensures found { result ≡ lookup (same_key key.now) stripe.old.entries }
    ensures stripe { stripe.new ≡ with_entries stripe.old (promoted (same_key key.now) stripe.old.entries) }
    ensures pass { pass.new ≡ pass.old }
{
    let Some(coef) = stripe.cache.peek(key).copied() else {
        return None;
    };
    bring_to_front(&mut stripe.cache, key);
    stripe.found = stripe.found.saturating_add(1);
    store.named();
    store.meet(pass, &mut stripe.pass);
    Some(coef)
}

/// Releases the name of an entry that left the table.
fn release_gone<N: MemoName, R: Wait>(
    rt: &R,
    store: &Store<N>,
    pass: &mut Pass,
    gone: Option<(MemoKey, Coef)>,
)
    requires own { pass.old.store ≡ store.now.table }
    requires held { IfSome gone (λ entry. 0 < times entry.0.name pass.old.held) }
    ensures same { SamePass pass.old pass.new }
    ensures pairs { MatchOption gone (pass.new.held ≡ pass.old.held) (λ entry. More (pair entry.0.name (code_at entry.0.name pass.old.held)) pass.new.held pass.old.held) }
{
    if let Some((key, _)) = gone {
        store.release(rt, pass, key.name());
    }
}

/// Keeps a value. A new entry of a full stripe takes the place of the last one, whose name is released.
///
/// The pass holds the name once more, and gives the pair to the stripe's pass. Want of memory leaves the entries, and both
/// passes with the same pairs as often.
pub fn keep_in<N: MemoName, R: Wait>(
    rt: &R,
    store: &Store<N>,
    pass: &mut Pass,
    stripe: &mut MemoStripe<N>,
    key: &MemoKey,
    coef: Coef,
) -> Result<Kept, AllocError>
    requires own { pass.old.store ≡ store.now.table }
    requires held { 0 < times key.now.name pass.old.held }
    requires place { stripe_for stripe.old.stripes key.now.name ≡ stripe.old.number }
    requires value { IsValueOf N.tables key.now.series (code_at key.now.name pass.old.held) coef }
    ensures same { SamePass pass.old pass.new × SameStripe stripe.old stripe.new }
    ensures pairs { Same pass.old.held pass.new.held }
    ensures gains { pass.old.gains ≤ pass.new.gains }
    ensures when { IfOk result (λ kept. (kept ≡ Kept.Skipped) ↔ (stripe.old.capacity ≡ 0)) }
    ensures stored { IfOk result (λ kept. kept ≡ Kept.Stored → stripe.new.entries ≡ put stripe.old key.now coef) }
    ensures skipped { IfOk result (λ kept. kept ≡ Kept.Skipped → (stripe.new ≡ stripe.old) × (pass.new ≡ pass.old)) }
    ensures err { OnErr result ((stripe.new.entries ≡ stripe.old.entries) × Same stripe.old.pass.held stripe.new.pass.held) }
{
    if stripe.capacity == 0 {
        return Ok(Kept::Skipped);
    }
    let copy = key.copy()?;
    let name = key.name();
    let _entries = stripe.cache.len();
    store.named();
    store.hold(rt, pass, name);
    store.give(rt, pass, &mut stripe.pass, name);
    stripe.pass.known();
    match put_first(&mut stripe.cache, copy, coef) {
        Ok(gone) => {
            release_gone(rt, store, &mut stripe.pass, gone);
            Ok(Kept::Stored)
        }
        Err(fault) => {
            store.release(rt, &mut stripe.pass, name);
            Err(fault)
        }
    }
}

/// Keys tell series apart, so a written value of a series is what its key is to be kept with.
pub fn keys_tell_series()
    ensures { KeysTellSeries }
{}
