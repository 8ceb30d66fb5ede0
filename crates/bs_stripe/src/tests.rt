//! Worked rows: which slots are given, what leaves, and a stripe of 100,000 keys.

use crate::{Lowered, Stripe};
use bs_core::{Key, Name};
use std::alloc::Global;
use std::test::Fail;

/// The key of a leaf.
fn leaf(alloc: Global, colour: u8) -> Result<Key, Fail> {
    Ok(Key::new(alloc, colour % 4, &[])?)
}

/// The slot that a key gets; none, where an entry has the key.
fn put(stripe: &mut Stripe, key: Key) -> Result<Option<u64>, Fail> {
    match stripe.find(&key) {
        Some(_) => Ok(None),
        None => match stripe.add(key) {
            Ok(slot) => Ok(Some(slot)),
            Err(refused) => Err(Fail::from(refused.fault)),
        },
    }
}

/// One less at a slot; nothing, where it has no entry.
fn lower(stripe: &mut Stripe, slot: u64) -> Option<Lowered> {
    if stripe.has(slot) {
        Some(stripe.lower(slot))
    } else {
        None
    }
}

/// Whether the entry left, with this key.
fn is_gone(lowered: &Option<Lowered>, key: &Key) -> bool {
    match lowered {
        Some(Lowered::Gone(gone)) => *gone == *key,
        Some(Lowered::Kept) => false,
        None => false,
    }
}

/// Whether the entry stayed.
fn is_kept(lowered: &Option<Lowered>) -> bool {
    match lowered {
        Some(Lowered::Gone(_)) => false,
        Some(Lowered::Kept) => true,
        None => false,
    }
}

#[test]
fn slots_are_used_again(rt: HostRuntime) -> Result<(), Fail> {
    let alloc = rt.alloc();
    let mut stripe = Stripe::new(alloc);
    let first = leaf(alloc, 0)?;
    assert!(rt; put(&mut stripe, leaf(alloc, 0)?)? == Some(0));
    assert!(rt; put(&mut stripe, leaf(alloc, 1)?)? == Some(1));
    assert!(rt; put(&mut stripe, leaf(alloc, 1)?)?.is_none());
    let gone = lower(&mut stripe, 0);
    assert!(rt; is_gone(&gone, &first));
    assert!(rt; stripe.find(&first).is_none() && !stripe.has(0));
    assert!(rt; put(&mut stripe, leaf(alloc, 2)?)? == Some(0));
    assert!(rt; put(&mut stripe, leaf(alloc, 3)?)? == Some(2));
    if stripe.has(1) {
        stripe.raise(1);
    }
    if stripe.has(1) {
        assert!(rt; stripe.count(1) == 2 && stripe.key(1).colour() == 1);
    }
    let kept = lower(&mut stripe, 1);
    assert!(rt; is_kept(&kept));
    assert!(rt; stripe.live() == 3 && stripe.has(1) && !stripe.has(3));
    Ok(())
}

/// The last slot that became vacant is the first to be used.
#[test]
fn vacant_slots_are_a_chain(rt: HostRuntime) -> Result<(), Fail> {
    let alloc = rt.alloc();
    let mut stripe = Stripe::new(alloc);
    for colour in 0..4 {
        let _slot = put(&mut stripe, leaf(alloc, colour)?)?;
    }
    for slot in 0..3 {
        let _gone = lower(&mut stripe, slot);
    }
    assert!(rt; stripe.live() == 1);
    assert!(rt; put(&mut stripe, leaf(alloc, 0)?)? == Some(2));
    assert!(rt; put(&mut stripe, leaf(alloc, 1)?)? == Some(1));
    assert!(rt; put(&mut stripe, leaf(alloc, 2)?)? == Some(0));
    assert!(rt;
        put(
            &mut stripe,
            Key::new(alloc, 2, &[Name { stripe: 0, slot: 0 }])?
        )? == Some(4)
    );
    Ok(())
}

/// The key of a root over one child of this slot.
fn over(alloc: Global, slot: u64) -> Result<Key, Fail> {
    Ok(Key::new(alloc, 0, &[Name { stripe: 0, slot }])?)
}

#[test]
fn many_keys(rt: HostRuntime) -> Result<(), Fail> {
    let alloc = rt.alloc();
    let many = 100_000;
    let mut stripe = Stripe::new(alloc);
    for slot in 0..many {
        if put(&mut stripe, over(alloc, slot)?)? != Some(slot) {
            return Err(Fail::from("another slot"));
        }
    }
    assert!(rt; stripe.live() == many);
    for slot in 0..many {
        let key = over(alloc, slot)?;
        if stripe.find(&key) != Some(slot) {
            return Err(Fail::from("not found"));
        }
        let gone = lower(&mut stripe, slot);
        if !is_gone(&gone, &key) {
            return Err(Fail::from("another key"));
        }
    }
    assert!(rt; stripe.live() == 0);
    Ok(())
}
