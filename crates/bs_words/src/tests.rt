//! That words are read, and that refused ones are told as usage and not as want of memory.
use crate::{Options, WordsFault, read_words};
use std::alloc::Global;
use std::test::Fail;

/// What the words come to: the options in order, or `None` where they are refused.
fn said(
    alloc: Global,
    words: &[&str],
) -> Result<Option<(Option<usize>, usize, Option<u64>)>, Fail> {
    let mut strings: Vec<String> = Vec::new(alloc);
    for word in words {
        strings.push(String::from_str(alloc, word)?)?;
    }
    match read_words(alloc, strings.as_slice()) {
        Ok(
            Options {
                workers,
                memo,
                seed,
            },
        ) => Ok(Some((workers, memo, seed))),
        Err(WordsFault::Usage) => Ok(None),
        Err(WordsFault::Memory(cause)) => Err(cause.into()),
    }
}

#[test]
fn takes(rt: HostRuntime) -> Result<(), Fail> {
    let alloc = rt.alloc();
    assert!(rt; said(alloc, &[])? == Some((None, 65_536, None)));
    assert!(rt; said(alloc, &["--workers=+4"])? == Some((Some(4), 65_536, None)));
    assert!(rt;
        said(alloc, &["--memo", "5", "--workers", "64", "--"])? == Some((Some(64), 5, None))
    );
    assert!(rt;
        said(alloc, &["--make", "7", "--workers", "1"])? == Some((Some(1), 65_536, Some(7)))
    );
    Ok(())
}

#[test]
fn refuses(rt: HostRuntime) -> Result<(), Fail> {
    let alloc = rt.alloc();
    for words in [
        ["x"].as_slice(),
        ["-h"].as_slice(),
        ["--help"].as_slice(),
        ["--version"].as_slice(),
        ["--", "x"].as_slice(),
        ["--workers"].as_slice(),
        ["--workers", "0"].as_slice(),
        ["--workers", "65"].as_slice(),
        ["--workers", "4", "--workers", "4"].as_slice(),
        ["--memo", "1048577"].as_slice(),
        ["--memo=-0"].as_slice(),
        ["--memo", "\u{664}"].as_slice(),
        ["--make", "-1"].as_slice(),
        ["--make=18446744073709551616"].as_slice(),
        ["--make", "7", "--make", "7"].as_slice(),
    ] {
        assert!(rt; said(alloc, words)? == None, "{words:?}");
    }
    Ok(())
}
