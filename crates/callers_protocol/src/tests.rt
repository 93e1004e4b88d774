//! Two callers, each in a room of its own.
use crate::turns;
use room_core::{Act, Refused, RunFault};
use std::test::Fail;

#[test]
fn two_rooms_open_one_after_the_other(rt: HostRuntime) -> Result<(), Fail> {
    let acts = [
        (0, Act::Draw(0)),
        (1, Act::Draw(1)),
        (0, Act::Step),
        (0, Act::Step),
        (0, Act::Step),
        (0, Act::Step),
        (0, Act::Step),
        (0, Act::Leave),
        (0, Act::Step),
        (0, Act::Step),
        (0, Act::Step),
        (0, Act::Step),
        (0, Act::Step),
    ];
    match turns(rt.alloc(), 2, &acts) {
        Ok(turns) => {
            assert_eq!(rt; turns.len(), 2);
            assert_eq!(rt; (turns[0].turn, turns[0].room), (1, 0));
            assert_eq!(rt; (turns[1].turn, turns[1].room), (2, 1));
        }
        Err(_) => assert!(rt; false),
    }
    match turns(rt.alloc(), 1, &[(0, Act::Leave)]) {
        Err(RunFault::Act { at, why }) => {
            assert_eq!(rt; at, 1);
            assert!(rt; why == Refused::NotIn);
        }
        _ => assert!(rt; false),
    }
    Ok(())
}
