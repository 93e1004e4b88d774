//! One caller that pushes in parts, with a draw and with none.
ghost use Rattle.std.specs.Prelude.{◌≤◌, ◌^◌};

use crate::push_in_parts;
use bay_core::{Layout, Reply};
use bay_store::Bay;
use std::alloc::{AllocError, Global};
use std::sync::Wait;

// What a push of 7 is answered, by a caller that has so many draws: the reply and the item.
fn answered<R: Wait>(rt: &R, alloc: Global, draws: u64) -> Result<Option<(Reply, u64)>, AllocError>
    requires { draws ≤ 2 ^ 48 }
{
    let (bay, passes) = Bay::set_up(alloc, Layout::Split, 1, 1, draws)?;
    let mut passes = passes;
    let Some(pass) = passes.pop() else {
        return Ok(None);
    };
    let (_pass, receipt) = push_in_parts(rt, &bay, pass, 7);
    match receipt {
        Some(receipt) => Ok(Some((receipt.entry.reply, receipt.entry.arg))),
        None => Ok(None),
    }
}

#[test]
fn a_push_in_parts_is_answered(rt: HostRuntime) -> Result<(), AllocError> {
    assert_eq!(rt; answered(&rt, rt.alloc(), 1)?, Some((Reply::Done, 7)));
    assert_eq!(rt; answered(&rt, rt.alloc(), 0)?, None);
    Ok(())
}
