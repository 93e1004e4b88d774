//! The tally of callers in threads.
use crate::tally;
use std::alloc::AllocError;

#[test]
fn each_stay_is_counted_in_its_room(rt: HostRuntime) -> Result<(), AllocError> {
    let spread = tally(&rt, rt.alloc(), 4, 50, true)?;
    assert!(rt; spread.as_slice() == [50, 50, 50, 50].as_slice());
    let one_room = tally(&rt, rt.alloc(), 4, 50, false)?;
    assert!(rt; one_room.as_slice() == [200, 0, 0, 0].as_slice());
    Ok(())
}
