//! Two names, one after the other: each stands for its own tree until it is taken out.
use crate::live::{LiveTree, LiveTrees};
use bs_tree::Code;
use std::test::Fail;

fn number_of(tree: Option<LiveTree>) -> Option<u32> {
    tree.map(|live| live.number)
}

#[test]
fn names_come_and_go(rt: HostRuntime) -> Result<(), Fail> {
    let mut live = LiveTrees::new(rt.alloc());
    let code = Code::leaf(2);
    assert!(rt; live.find(b"bushy").is_none());
    live.insert(b"bushy", LiveTree { number: 7, code })?;
    assert!(rt; live.find(b"tall").is_none());
    live.insert(
        b"tall",
        LiveTree {
            number: 9,
            code: Code::leaf(1),
        },
    )?;
    assert_eq!(rt; number_of(live.find(b"bushy")), Some(7));
    assert_eq!(rt; number_of(live.find(b"tall")), Some(9));
    assert!(rt;
        live.find(b"tall")
            .is_some_and(|tree| tree.code == Code::leaf(1))
    );
    assert_eq!(rt; number_of(live.remove(b"bushy")), Some(7));
    assert_eq!(rt; number_of(live.find(b"bushy")), None);
    assert_eq!(rt; number_of(live.remove(b"bushy")), None);
    assert_eq!(rt; number_of(live.pop()), Some(9));
    assert_eq!(rt; number_of(live.pop()), None);
    Ok(())
}
