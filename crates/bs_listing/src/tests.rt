//! Lists of trees: worked ones, and those of another program written from the format alone.

ghost use Rattle.std.specs.Prelude.{◌≡◌, ◌<◌};

use crate::{write_partitions, write_splits};
use bs_steps::Steps;
use bs_tree::Code;
use std::alloc::{AllocError, Global};
use std::marker::Brand;
use std::sync::ledger::{Blank, Ledger};
use std::test::Fail;

/// The code of these levels and colours, a digit each.
fn code_of(alloc: Global, levels: &str, colours: &str) -> Result<Code, Fail> {
    let mut pairs = Vec::new(alloc);
    for (level, colour) in levels.bytes().zip(colours.bytes()) {
        pairs.push((level.saturating_sub(b'0'), colour.saturating_sub(b'0')))?;
    }
    Ok(Code::of_pairs(&pairs).ok_or("no level sequence")?)
}

/// The list of the splittings of a tree.
fn splits(alloc: Global, levels: &str, colours: &str) -> Result<Vec<u8>, Fail> {
    let code = code_of(alloc, levels, colours)?;
    Ok(counted_splits::<Brand>(alloc, code, Blank::new(1))?)
}

fn counted_splits<L: Ledger>(alloc: Global, code: Code, blank: Blank) -> Result<Vec<u8>, AllocError>
    requires name { blank.name ≡ L.name }
    requires parts { blank.parts ≡ L.parts }
    requires some { 0 < blank.parts }
{
    let mut out = Vec::new(alloc);
    write_splits(&mut out, code, &mut Steps::<L>::new(blank))?;
    Ok(out)
}

/// The list of its partitions.
fn partitions(alloc: Global, levels: &str, colours: &str) -> Result<Vec<u8>, Fail> {
    let code = code_of(alloc, levels, colours)?;
    Ok(counted_partitions::<Brand>(alloc, code, Blank::new(1))?)
}

fn counted_partitions<L: Ledger>(
    alloc: Global,
    code: Code,
    blank: Blank,
) -> Result<Vec<u8>, AllocError>
    requires name { blank.name ≡ L.name }
    requires parts { blank.parts ≡ L.parts }
    requires some { 0 < blank.parts }
{
    let mut out = Vec::new(alloc);
    write_partitions(&mut out, code, &mut Steps::<L>::new(blank))?;
    Ok(out)
}

#[test]
fn splittings_of_a_fork(rt: HostRuntime) -> Result<(), Fail> {
    let text = b"split 5\nempty | 1,2,2\n1 | 1 1\n1,2 | 1\n1,2 | 1\n1,2,2 |\n";
    let given = splits(rt.alloc(), "122", "000")?;
    assert_eq!(rt; given.as_slice(), text.as_slice());
    Ok(())
}

#[test]
fn partitions_of_a_chain(rt: HostRuntime) -> Result<(), Fail> {
    let text = b"partition 4\n1 | 1,2,3\n1,2 | 1,2 1\n1,2 | 1 1,2\n1,2,3 | 1 1 1\n";
    let given = partitions(rt.alloc(), "123", "000")?;
    assert_eq!(rt; given.as_slice(), text.as_slice());
    Ok(())
}

#[test]
fn items_of_one_node(rt: HostRuntime) -> Result<(), Fail> {
    let given = splits(rt.alloc(), "1", "0")?;
    assert_eq!(rt; given.as_slice(), b"split 2\nempty | 1\n1 |\n".as_slice());
    let given = partitions(rt.alloc(), "1", "0")?;
    assert_eq!(rt; given.as_slice(), b"partition 1\n1 | 1\n".as_slice());
    Ok(())
}

#[test]
fn items_with_colours(rt: HostRuntime) -> Result<(), Fail> {
    let text = b"split 7
empty | 1,2,2,3:0,3,1,2
1 | 1:3 1,2:1,2
1,2:0,1 | 1:3 1:2
1,2,3:0,1,2 | 1:3
1,2:0,3 | 1,2:1,2
1,2,2:0,3,1 | 1:2
1,2,2,3:0,3,1,2 |
";
    let given = splits(rt.alloc(), "1223", "0312")?;
    assert_eq!(rt; given.as_slice(), text.as_slice());
    let text = b"partition 8
1 | 1,2,2,3:0,3,1,2
1,2 | 1,2,2:0,3,1 1:2
1,2 | 1,2:0,3 1,2:1,2
1,2,3 | 1,2:0,3 1:1 1:2
1,2 | 1,2,3:0,1,2 1:3
1,2,2 | 1,2:0,1 1:3 1:2
1,2,2 | 1 1:3 1,2:1,2
1,2,3,2 | 1 1:3 1:1 1:2
";
    let given = partitions(rt.alloc(), "1223", "0312")?;
    assert_eq!(rt; given.as_slice(), text.as_slice());
    Ok(())
}

/// The root over six leaves: each may be cut, and nothing may be kept; each edge may be cut.
#[test]
fn as_many_items_as_there_can_be(rt: HostRuntime) -> Result<(), Fail> {
    let given = splits(rt.alloc(), "1222222", "0000000")?;
    assert!(rt; given.starts_with(b"split 65\nempty | 1,2,2,2,2,2,2\n1 | 1 1 1 1 1 1\n"));
    let count = given.iter().filter(|byte| **byte == b'\n').count();
    assert_eq!(rt; count, 66);
    let given = partitions(rt.alloc(), "1222222", "0000000")?;
    assert!(rt; given.ends_with(b"\n1,2,2,2,2,2,2 | 1 1 1 1 1 1 1\n"));
    let count = given.iter().filter(|byte| **byte == b'\n').count();
    assert_eq!(rt; count, 65);
    Ok(())
}
