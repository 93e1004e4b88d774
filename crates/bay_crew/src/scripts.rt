//! The scripts of all callers.
ghost use Rattle.std.specs.Prelude.{◌≡◌, map, vec_len, IfOk};
ghost use Rattle.bay_crew.specs.Mixes.{script_of, scripts_of};

use crate::mixes::{Mix, nth_line};
use room_script::Line;
use std::alloc::{AllocError, Global};

// The calls of one caller.
fn script(alloc: Global, mix: Mix, who: u32, calls: u32) -> Result<Vec<Line>, AllocError>
    ensures { IfOk result (λ script. script.items ≡ script_of mix calls who) }
{
    let mut lines = Vec::new(alloc);
    for k in 0..calls {
        lines.push(nth_line(mix, who, k))?;
    }
    Ok(lines)
}

// Those of all callers.
pub(crate) fn scripts(
    alloc: Global,
    mix: Mix,
    callers: u32,
    calls: u32,
) -> Result<Vec<Vec<Line>>, AllocError>
    ensures len { IfOk result (λ scripts. vec_len scripts ≡ callers) }
    ensures each { IfOk result (λ scripts. map (λ script. script.items) scripts.items ≡ scripts_of mix callers calls) }
{
    let mut scripts = Vec::new(alloc);
    for who in 0..callers {
        let next = script(alloc, mix, who, calls)?;
        scripts.push(next)?;
    }
    Ok(scripts)
}
