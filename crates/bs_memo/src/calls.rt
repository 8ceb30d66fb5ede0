//! What threads ask of a memo. Each call finds the stripe of the key, and does the rest there.
ghost use Rattle.std.specs.Prelude.{◌≡◌, ◌<◌, ◌≤◌, ◌↔◌, IfSome, IfOk};
ghost use Rattle.bs_core.specs.Machine.{times, code_at};
ghost use Rattle.bs_store.specs.Walks.{Same, SamePass};
ghost use Rattle.bs_memo.specs.Entries.{IsValueOf};

use crate::key::MemoKey;
use crate::laws::{keep_in, look_in};
use crate::memo::{Memo, share};
use crate::stripe::{Kept, MemoName, stripe_for};
use bs_frac::Coef;
use bs_store::{Pass, Store};
use std::alloc::AllocError;
use std::sync::Wait;

impl<'t, N: MemoName> Memo<'t, N> {
    /// The value of the key's series at the tree of its name. None exactly where the key's stripe has no entry of it at
    /// that moment. Takes no memory.
    pub fn look<R: Wait>(
        &self,
        rt: &R,
        store: &Store<N>,
        pass: &mut Pass,
        key: &MemoKey,
    ) -> Option<Coef>
        requires own { pass.old.store ≡ store.now.table }
        requires held { 0 < times key.now.name pass.old.held }
        ensures value { IfSome result (λ v. IsValueOf N.tables key.now.series (code_at key.now.name pass.old.held) v) }
        ensures pass { pass.new ≡ pass.old }
    {
        let count = self.stripes.len();
        let place = stripe_for(key.name(), count);
        let part = share(self.capacity, place, count);
        'tries: for _ in rt.forever() {
            let mut stripe = self.stripes[place].lock(rt);
            if stripe.is_at(place, count, part) {
                return look_in(store, pass, &mut *stripe, key);
            }
        }
        unreachable!()
    }

    /// Keeps a value. A new entry of a full stripe takes the place of the one that was used least recently.
    pub fn keep<R: Wait>(
        &self,
        rt: &R,
        store: &Store<N>,
        pass: &mut Pass,
        key: &MemoKey,
        coef: Coef,
    ) -> Result<Kept, AllocError>
        requires own { pass.old.store ≡ store.now.table }
        requires held { 0 < times key.now.name pass.old.held }
        requires value { IsValueOf N.tables key.now.series (code_at key.now.name pass.old.held) coef }
        ensures same { SamePass pass.old pass.new }
        ensures pairs { Same pass.old.held pass.new.held }
        ensures gains { pass.old.gains ≤ pass.new.gains }
        ensures skipped { IfOk result (λ kept. (kept ≡ Kept.Skipped) ↔ (self.now.capacity ≡ 0)) }
    {
        let count = self.stripes.len();
        let place = stripe_for(key.name(), count);
        let part = share(self.capacity, place, count);
        'tries: for _ in rt.forever() {
            let mut stripe = self.stripes[place].lock(rt);
            if stripe.is_at(place, count, part) {
                return keep_in(rt, store, pass, &mut *stripe, key, coef);
            }
        }
        unreachable!()
    }

    /// How many looks found their entry, `u64::MAX` where there were more. Takes no memory.
    pub fn found<R: Wait>(&self, rt: &R) -> u64 {
        let mut total: u64 = 0;
        'stripes: for stripe in &self.stripes {
            total = total.saturating_add(stripe.lock(rt).found());
        }
        total
    }
}
