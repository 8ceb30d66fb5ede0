//! How a memo ends: each stripe releases the names of its entries, and its pass comes home.
ghost use Rattle.std.specs.Prelude.{◌≡◌, All, IsTrue};
ghost use Rattle.bs_store.specs.Closing.{numbers_of};
ghost use Rattle.bs_memo.specs.Stripes.{IsEmptyOf};

use crate::memo::{Home, Memo};
use crate::stripe::{MemoName, MemoStripe};
use bs_store::{Pass, Store};
use std::sync::Wait;

/// Waits for good where it does not hold.
fn only_if<R: Wait>(rt: &R, holds: bool)
    ensures { IsTrue holds }
{
    'tries: for _ in rt.forever() {
        if holds {
            return;
        }
    }
    unreachable!()
}

impl<N: MemoName> MemoStripe<N> {
    /// Its pass, once the name of each entry is released.
    fn emptied<R: Wait>(self, rt: &R, store: &Store<N>) -> Pass
        ensures { IsEmptyOf N.table result }
    {
        let MemoStripe {
            number: _,
            stripes: _,
            capacity: _,
            mut cache,
            found: _,
            mut pass,
            name: _,
        } = self;
        store.named();
        'entries: while let Some((key, _)) = cache.pop_lru() {
            pass.known();
            store.release(rt, &mut pass, key.name());
        }
        pass
    }
}

impl<'t, N: MemoName> Memo<'t, N> {
    /// Releases the name of every entry. The passes that the memo was made with come back in their places, with empty lists.
    /// Takes no memory.
    pub fn close<R: Wait>(self, rt: &R, store: &Store<N>) -> Vec<Pass>
        ensures numbers { numbers_of result.items ≡ self.entry.numbers }
        ensures empty { All (IsEmptyOf N.table) result.items }
    {
        let Memo {
            tables: _,
            stripes,
            numbers,
            home,
            capacity: _,
        } = self;
        let Home {
            room,
            passes: mut home,
        } = home.into_inner();
        only_if(rt, numbers.len() <= room);
        let mut place = 0;
        'stripes: for stripe in stripes {
            let pass = stripe.into_inner().emptied(rt, store);
            only_if(rt, pass.number() == numbers[place]);
            home.push_reserved(pass);
            place += 1;
        }
        home
    }
}
