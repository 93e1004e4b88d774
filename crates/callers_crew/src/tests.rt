//! Two workers from 6 down: 127 items.
use crate::two_workers;
use std::alloc::AllocError;

#[test]
fn two_workers_handle_each_item_once(rt: HostRuntime) -> Result<(), AllocError> {
    let ended = two_workers(&rt, rt.alloc(), 6)?;
    let mut handled = 0usize;
    for work in &ended.works {
        handled = handled.saturating_add(work.done());
    }
    assert_eq!(rt; (handled, ended.left.len()), (127, 0));
    Ok(())
}
