//! The texts of three seeds, by their lengths and folds, and a count over pieces. The expected numbers are those of two other
//! programs that were written from the format alone.

use crate::{make_input, summary};
use std::alloc::Global;
use std::test::Fail;

/// The summary of a seed, in which its made input stands for the text as well.
fn summary_of_input(alloc: Global, seed: u64) -> Result<Vec<u8>, Fail> {
    let input = make_input(alloc, seed)?;
    let text = Vec::from_array(alloc, [make_input(alloc, seed)?])?;
    Ok(summary(alloc, seed, &input, &text)?)
}

#[test]
fn made_inputs(rt: HostRuntime) -> Result<(), Fail> {
    let alloc = rt.alloc();
    for (seed, expected) in [
        (
            7,
            "seed 7\ninput 31840\nsessions 64\ncommands 2240\nreply 31840\nerrors 0\nfold 8513580002342197283\n",
        ),
        (
            0,
            "seed 0\ninput 31794\nsessions 64\ncommands 2240\nreply 31794\nerrors 0\nfold 4225227809314438302\n",
        ),
        (
            u64::MAX,
            "seed 18446744073709551615\ninput 32070\nsessions 64\ncommands 2240\nreply 32070\nerrors 0\nfold 1911565462629785779\n",
        ),
    ] {
        assert!(rt;
            summary_of_input(alloc, seed)?.as_slice() == expected.as_bytes(),
            "{seed}"
        );
    }
    Ok(())
}

#[test]
fn pieces_of_a_text(rt: HostRuntime) -> Result<(), Fail> {
    let alloc = rt.alloc();
    let mut pieces = Vec::new(alloc);
    for piece in [
        "err",
        "or 3\nno error 3\n",
        "",
        "error",
        " 7\nerrors\n\nerror",
    ] {
        pieces.push(Vec::from_slice(alloc, piece.as_bytes())?)?;
    }
    let expected =
        "seed 1\ninput 8\nsessions 64\ncommands 2240\nreply 40\nerrors 2\nfold 17260801229164180051\n";
    assert!(rt; summary(alloc, 1, b"session\n", &pieces)?.as_slice() == expected.as_bytes());
    Ok(())
}
