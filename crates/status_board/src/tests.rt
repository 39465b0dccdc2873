//! Tests: the text of a board.
use crate::Board;
use std::test::Fail;

#[test]
fn boards_are_asked_and_answered(rt: HostRuntime) -> Result<(), Fail> {
    let board = Board::new(rt.alloc(), 2)?;
    assert!(rt; board.is_answered() && !board.is_asked(0));
    board.ask();
    assert!(rt; board.is_asked(0) && board.is_asked(1) && !board.is_answered());
    Ok(())
}

#[test]
fn people_are_told_once_a_minute(rt: HostRuntime) -> Result<(), Fail> {
    let board = Board::new(rt.alloc(), 2)?;
    assert!(rt; !board.is_to_tell(0, 5));
    board.begin_serving();
    assert!(rt; board.is_to_tell(0, 5) && !board.is_to_tell(0, 60_004) && board.is_to_tell(1, 7));
    assert!(rt; board.is_to_tell(0, 60_005) && !board.is_to_tell(0, 60_005));
    Ok(())
}
