//! Runs a loop of mixed sums and products over fractions of 1, 2 and 16 bytes, and prints what it found: a line for
//! each size with its results, its overflows and a checksum. The word is the number of rounds; it times nothing itself.
#![tactic(auto)]

mod mix;

use crate::mix::{Tally, run};
use anyhow::Result;
use std::env;

fn main(rt: HostRuntime) -> Result<()> {
    let mut words = env::args(&rt)?;
    let _ = words.next();
    let rounds = match words.next() {
        Some(word) => word.as_str().parse::<u32>()?,
        None => 1000,
    };
    for bytes in [1, 2, 16] {
        let Some(
            Tally {
                overflows,
                checksum,
            },
        ) = run(rt.alloc(), bytes, rounds)?
        else {
            continue;
        };
        println!(rt; "{bytes} bytes: {overflows} overflows of {rounds}, checksum {checksum}")?;
    }
    Ok(())
}
