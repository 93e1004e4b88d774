//! One caller of a trial.
ghost use Rattle.std.specs.Prelude.{◌≡◌, ◌-◌, ◌≤◌, [], length, min, vec_capacity, IfOk, IfErr, IsOkAnd};
ghost use Rattle.room_trial.specs.Callers.{Answers};

use crate::line_calls::call_line;
use bay_core::Entry;
use bay_store::{Bay, BayPass};
use room_script::Line;
use std::alloc::{AllocError, Global};
use std::sync::Wait;
use work_pool::Gate;

/// A caller of a trial after its script.
#[derive(Drop)]
pub struct CallerEnd {
    /// Its pass.
    pub pass: BayPass,
    /// The entries of its calls in their order; or want of memory, with which it made no call.
    pub entries: Result<Vec<Entry>, AllocError>,
}

/// Makes the calls of the lines in their order, with a pass of this bay that holds a share. Before
/// line i, counted from 0, it asks the gate with the caller's number and i. It ends before the last
/// line only where a call of the bay answers that the pass is spent: the pass has then made its
/// last draw. It takes the memory for the entries first; where there is none, the pass is as it was,
/// and the gate was not asked. It waits for those that are let in before it.
pub fn trial_caller<R: Wait, G: Gate>(
    rt: &R,
    alloc: Global,
    bay: &Bay,
    pass: BayPass,
    lines: &[Line],
    gate: &G,
) -> CallerEnd
    requires own { pass.site ≡ bay.now.site }
    requires share { 1 ≤ pass.user.held }
    ensures answers { IfOk result.entries (λ es. Answers bay.now.usage lines.now pass result.pass es.items) }
    ensures wanting { IfErr result.entries (λ _. result.pass ≡ pass) }
{
    let draws = pass.limit() - pass.draws();
    let most = draws.min(lines.len() as u64);
    match Vec::with_capacity(alloc, most as usize) {
        Ok(space) => answered(rt, bay, pass, lines, gate, space),
        Err(error) => CallerEnd {
            pass,
            entries: Err(error),
        },
    }
}

// Makes the calls of the lines, into memory that was taken before.
fn answered<R: Wait, G: Gate>(
    rt: &R,
    bay: &Bay,
    pass: BayPass,
    lines: &[Line],
    gate: &G,
    space: Vec<Entry>,
) -> CallerEnd
    requires own { pass.site ≡ bay.now.site }
    requires share { 1 ≤ pass.user.held }
    requires limited { pass.draws ≤ pass.limit }
    requires space { (space.items ≡ []) × (min (pass.limit - pass.draws) (length lines.now) ≤ vec_capacity space) }
    ensures { IsOkAnd result.entries (λ es. Answers bay.now.usage lines.now pass result.pass es.items) }
{
    let who = pass.who();
    let mut pass = pass;
    let mut entries = space;
    for (i, line) in lines.iter().enumerate() {
        gate.ask(who, i as u64);
        let (after, receipt) = call_line(rt, bay, pass, *line);
        pass = after;
        match receipt {
            Some(receipt) => entries.push_reserved(receipt.entry),
            None => {
                return CallerEnd {
                    pass,
                    entries: Ok(entries),
                };
            }
        }
    }
    CallerEnd {
        pass,
        entries: Ok(entries),
    }
}
