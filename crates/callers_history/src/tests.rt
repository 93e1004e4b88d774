//! One thread that pushes beside one that takes.
use crate::one_history;
use bay_core::Layout;
use room_history::check;
use room_script::{Line, Trial};
use std::alloc::AllocError;

#[test]
fn two_threads_make_one_history(rt: HostRuntime) -> Result<(), AllocError> {
    let alloc = rt.alloc();
    let mut scripts = Vec::new(alloc);
    scripts.push(vec![in alloc; Line::Push(1), Line::Push(2), Line::Enq(3)]?)?;
    scripts.push(vec![in alloc; Line::Pop, Line::Deq]?)?;
    let trial = Trial {
        layout: Layout::Split,
        blocks: 1,
        draws: 100,
        scripts,
    };
    let history = one_history(&rt, alloc, &trial)?;
    assert_eq!(rt; history.len(), 5);
    assert!(rt; check(alloc, Layout::Split, 1, &history).is_ok());
    Ok(())
}
