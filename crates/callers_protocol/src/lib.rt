//! A caller to copy: a schedule of acts is run on the protocol, and its openings are listed.
#![tactic(auto)]

ghost use Rattle.std.specs.Prelude.{◌≡◌, ◌≤◌, ℕ, IfOk, OnOk, Err};
ghost use Rattle.room_core.specs.Schedule.{FirstRefused};
ghost use Rattle.room_core.specs.Order.{moments, trace_of};
ghost use Rattle.room_core.specs.Openings.{opened};
ghost use Rattle.room_core.specs.Choice.{IsCyclic};
ghost use Rattle.room_core.specs.Bypass.{IsPrompt};
ghost use Rattle.room_core.specs.declared.acts.Refused.{Refused};

use room_core::{Act, Opening, RunFault, openings, run};
use std::alloc::Global;

/// Runs the acts, each a caller's number and what it does, over two rooms and up to 64 callers, and
/// lists the openings in their order. The next room is chosen in cyclic order, and no ticket is passed
/// by for more than a round. It waits for nobody.
///
/// # Errors
///
/// `RunFault::Act` exactly where the protocol refuses an act, with the first; `RunFault::Memory` for want
/// of memory.
pub fn turns(alloc: Global, callers: u32, acts: &[(u64, Act)]) -> Result<Vec<Opening>, RunFault>
    requires { callers ≤ 64 }
    ensures openings { IfOk result (λ turns. turns.items ≡ opened (trace_of (moments 2 callers acts.now))) }
    ensures cyclic { OnOk result (IsCyclic 2 (moments 2 callers acts.now)) }
    ensures prompt { OnOk result (IsPrompt 2 (moments 2 callers acts.now)) }
    ensures refused { (at : ℕ) (why : Refused) → result ≡ Err (RunFault.Act at why) → FirstRefused 2 callers acts.now at why }
{
    let ran = run(alloc, 2, callers, acts)?;
    Ok(openings(alloc, &ran.trace)?)
}

#[cfg(test)]
mod tests;
