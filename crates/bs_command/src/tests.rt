//! The numbers of the errors. What a session replies is tested where sessions are driven, and by scripts.

use super::Error;
use std::test::Fail;

#[test]
fn errors_by_their_numbers(rt: HostRuntime) -> Result<(), Fail> {
    let numbers = [
        (Error::Command, 1),
        (Error::Words, 2),
        (Error::Name, 3),
        (Error::Taken, 4),
        (Error::Levels, 6),
        (Error::Colours, 7),
        (Error::TooLarge, 8),
        (Error::Replies, 12),
    ];
    for (error, number) in numbers {
        assert_eq!(rt; error.number(), number);
    }
    Ok(())
}
