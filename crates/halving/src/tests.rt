//! The work by itself, pools and drives on one thread, and crews.
ghost use Rattle.std.specs.Prelude.{◌≤◌};

use crate::Twice;
use std::alloc::AllocError;
use work_pool::Work;

mod alone;
mod crews;
mod gates;
mod handfuls;
mod pools;

// Has an item given and kept through the trait alone.
fn give_and_keep<W: Work>(work: &mut W) -> Option<u64>
    requires { 1 ≤ (W.stands work.old).spare }
{
    let item = work.give()?;
    work.keep(item);
    work.kept()
}

#[test]
fn a_handled_item_leads_twice_to_the_next(rt: HostRuntime) -> Result<(), AllocError> {
    let mut work = Twice::new(rt.alloc(), Some(3), false)?;
    assert_eq!(rt; give_and_keep(&mut work), Some(3));
    work.handle(3)?;
    assert_eq!(rt;
        (work.give(), work.give(), work.give()),
        (Some(2), Some(2), None)
    );
    assert_eq!(rt; work.done(), 1);
    assert_eq!(rt; work.kept(), None);
    Ok(())
}
