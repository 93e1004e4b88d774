//! A drop box on one thread.
ghost use Rattle.std.specs.Prelude.{◌≡◌, IfSome, IfOk};
ghost use Rattle.room_gate.specs.Shows.{newcomer};
ghost use Rattle.room_gate.specs.Making.{ArePasses};
ghost use Rattle.room_gate.specs.Closing.{AreAll};
ghost use Rattle.drop_box.specs.Box.{new_visit};

use crate::{BoxUse, DropBox, Put, Taken};
use room_gate::Pass;
use std::alloc::{AllocError, Global};

/// The one pass of a set-up.
fn only<T: Drop>(
    drop_box: &DropBox<T>,
    draws: u64,
    passes: Vec<Pass<BoxUse<T>>>,
) -> Option<Pass<BoxUse<T>>>
    requires { ArePasses drop_box.now.site draws (λ who. new_visit) 1 passes.items }
    ensures { IfSome result (λ p. p ≡ newcomer drop_box.now.site draws (λ who. new_visit) 0) }
{
    let _ = drop_box;
    let _ = draws;
    let mut passes = passes;
    let pass = passes.pop()?;
    Some(pass)
}

/// The passes of a box with one caller.
fn alone<T: Drop>(
    alloc: Global,
    drop_box: &DropBox<T>,
    pass: Pass<BoxUse<T>>,
) -> Result<Vec<Pass<BoxUse<T>>>, AllocError>
    requires own { pass.site ≡ drop_box.now.site }
    requires callers { drop_box.now.callers ≡ 1 }
    ensures { IfOk result (λ v. AreAll drop_box.now.site drop_box.now.callers v.items) }
{
    let _ = drop_box;
    let mut passes = Vec::new(alloc);
    passes.push(pass)?;
    Ok(passes)
}

#[test]
fn an_item_goes_in_and_out(rt: HostRuntime) -> Result<(), AllocError> {
    let (drop_box, passes) = DropBox::<u64>::set_up(rt.alloc(), 1, 5)?;
    let Some(pass) = only(&drop_box, 5, passes) else {
        assert!(rt; false, "there is no pass");
        return Ok(());
    };
    let (pass, first) = drop_box.put(&rt, pass, 7);
    assert!(rt; first == Put::Stored);
    let (pass, second) = drop_box.put(&rt, pass, 8);
    assert!(rt; second == Put::Refused(8));
    let (pass, third) = drop_box.take(&rt, pass);
    assert!(rt; third == Taken::Item(7));
    let (pass, fourth) = drop_box.take(&rt, pass);
    assert!(rt; fourth == Taken::Nothing);
    let (pass, fifth) = drop_box.put(&rt, pass, 9);
    assert!(rt; fifth == Put::Stored);
    let (pass, spent) = drop_box.put(&rt, pass, 10);
    assert!(rt; spent == Put::Spent(10));
    let (pass, none) = drop_box.take(&rt, pass);
    assert!(rt; none == Taken::Spent);
    let mut pass = pass;
    assert_eq!(rt; drop_box.ring(&mut pass), 0);
    assert_eq!(rt; drop_box.ring(&mut pass), 1);
    let passes = alone(rt.alloc(), &drop_box, pass)?;
    let Ok(left) = drop_box.close(rt.alloc(), passes) else {
        assert!(rt; false, "there is no memory for the close");
        return Ok(());
    };
    assert!(rt; left.words.as_slice() == [0, 2].as_slice());
    assert!(rt; left.slots.as_slice() == [Some(9)].as_slice());
    Ok(())
}
