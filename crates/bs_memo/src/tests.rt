//! How a capacity is dealt to the stripes.
ghost use Rattle.std.specs.Prelude.{◌≡◌, [], vec_len};
ghost use Rattle.bs_store.specs.Seats.{NewPasses};

use crate::{Memo, MemoName};
use bs_store::{Pass, StoreParts};
use std::alloc::Global;
use std::marker::Brand;
use std::process::Abort;
use std::sync::Wait;
use std::test::Fail;

/// Whether three stripes have these parts of a capacity of 5, in their places.
fn three_stripes<N: MemoName, R: Wait + Abort>(
    rt: &R,
    alloc: Global,
    parts: &StoreParts,
    passes: Vec<Pass>,
    shares: [usize; 3],
) -> Result<(), Fail>
    requires name { parts.now.table ≡ N.table }
    requires passes { (vec_len passes ≡ 3) × NewPasses parts.now.table passes.items }
    requires tables { N.tables ≡ [] }
{
    let memo = match Memo::<N>::new(alloc, &[], passes, 5) {
        Ok(memo) => memo,
        Err(_) => return Err("no memory for a memo")?,
    };
    for (place, stripe) in memo.stripes.iter().enumerate() {
        let stripe = stripe.lock(rt);
        assert!(rt; place < 3 && stripe.is_at(place, 3, shares[place]));
    }
    Ok(())
}

#[test]
fn the_first_stripes_have_one_more(rt: HostRuntime) -> Result<(), Fail> {
    let (parts, passes) = StoreParts::new(rt.alloc(), 1, 3)?;
    three_stripes::<Brand, _>(&rt, rt.alloc(), &parts, passes, [2, 2, 1])
}
