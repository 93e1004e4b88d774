//! The callers of a trial, each in a thread of its own.
ghost use Rattle.std.specs.Prelude.{◌≡◌, ℕ, ◌<◌, ◌≤◌, length, map, vec_len, slice_index_or, Ok, IfOk};
ghost use Rattle.bay_core.specs.declared.numbers.TheConstants.{MOST_CALLERS, MOST_DRAWS};
ghost use Rattle.room_script.specs.Trials.{outline_of, IsBlocks};
ghost use Rattle.room_gate.specs.Together.{EachGives};
ghost use Rattle.room_trial.specs.Crews.{IsReady, EndsWell};
ghost use Rattle.room_trial.specs.Histories.{IsPlayed};

use crate::callers::{CallerEnd, trial_caller};
use bay_core::Entry;
use bay_store::{Bay, BayPass, Closed};
use room_script::{Line, Trial};
use std::alloc::{AllocError, Global};
use std::sync::Wait;
use std::thread;
use std::thread::Threads;
use work_pool::Gate;

/// What the callers of a trial did, and what their bay had left.
#[derive(Drop)]
pub struct Played {
    /// The entries of each caller's calls in their order, caller by caller.
    pub entries: Vec<Vec<Entry>>,
    /// What the bay was closed with.
    pub closed: Closed,
}

// The passes of all callers and their entries, in the same order.
#[derive(Drop)]
struct Parts {
    passes: Vec<BayPass>,
    entries: Vec<Vec<Entry>>,
}

// One caller, with its script among those of all.
fn one<R: Wait, G: Gate>(
    rt: &R,
    alloc: Global,
    bay: &Bay,
    pass: BayPass,
    scripts: &[Vec<Line>],
    gate: &G,
) -> CallerEnd
    requires { IsReady bay.now.site (length scripts.now) pass }
    ensures { EndsWell bay.now.usage (map (λ script. script.items) scripts.now) pass result }
{
    let script = &scripts[pass.who() as usize];
    trial_caller(rt, alloc, bay, pass, script, gate)
}

// All callers, each in a thread.
fn in_threads<R: Threads + Wait + Sync, G: Gate + Sync>(
    rt: &R,
    alloc: Global,
    bay: &Bay,
    passes: Vec<BayPass>,
    scripts: &[Vec<Line>],
    gate: &G,
) -> Result<Vec<CallerEnd>, AllocError>
    requires { (i : ℕ) (p : _) → i < vec_len passes → p ≡ slice_index_or passes.items i p → IsReady bay.now.site (length scripts.now) p }
    ensures len { IfOk result (λ ends. vec_len ends ≡ vec_len passes) }
    ensures each { IfOk result (λ ends. EachGives (λ p e. EndsWell bay.now.usage (map (λ script. script.items) scripts.now) p e) passes.items ends.items) }
{
    thread::map_vec(
        rt,
        passes,
        &|pass| { one(rt, alloc, bay, pass, scripts, gate) },
    )
}

// Parts the passes from the entries, if each caller found memory for its entries.
fn parted(alloc: Global, ends: Vec<CallerEnd>) -> Result<Parts, AllocError>
    ensures passes { IfOk result (λ parts. parts.passes.items ≡ map (λ end. end.pass) ends.items) }
    ensures entries { IfOk result (λ parts. map (λ list. Ok list) parts.entries.items ≡ map (λ end. end.entries) ends.items) }
{
    let mut parts = Parts {
        passes: Vec::new(alloc),
        entries: Vec::new(alloc),
    };
    for CallerEnd { pass, entries } in ends {
        parts.passes.push(pass)?;
        parts.entries.push(entries?)?;
    }
    Ok(parts)
}

/// Sets up the bay of a trial, has each of its 0 to 64 callers make the calls of its script, each in a
/// thread of its own where one can be made, and closes the bay. Before line i of caller c the gate is
/// asked with c and i, both counted from 0. It waits for the callers.
///
/// The callers' lists of entries are their own in one legal history, which leaves the lists that the bay
/// closed with. Each caller answered the first lines of its script, in order: all for which it had a
/// draw. Where blocks change hands an answered line may take more draws than one: a caller with D draws
/// that answered K lines, and not all, had them used, and K + 2 and one for each 64 items that all
/// callers stored make at least D.
///
/// # Errors
///
/// Want of memory alone. A caller that has no memory for its entries makes no call; the others make
/// theirs all the same. The bay is then dropped and not closed, and what the callers did is lost.
pub fn play<R: Threads + Wait + Sync, G: Gate + Sync>(
    rt: &R,
    alloc: Global,
    trial: &Trial,
    gate: &G,
) -> Result<Played, AllocError>
    requires blocks { IsBlocks trial.now.layout trial.now.blocks }
    requires draws { trial.now.draws ≤ MOST_DRAWS }
    requires callers { vec_len trial.now.scripts ≤ MOST_CALLERS }
    ensures { IfOk result (λ played. IsPlayed (outline_of trial.now) played) }
{
    let callers = trial.scripts.len() as u32;
    let (bay, passes) = Bay::set_up(alloc, trial.layout, trial.blocks, callers, trial.draws)?;
    let ends = in_threads(rt, alloc, &bay, passes, &trial.scripts, gate)?;
    let Parts { passes, entries } = parted(alloc, ends)?;
    match bay.close(alloc, passes) {
        Ok(closed) => Ok(Played { entries, closed }),
        Err(_) => Err(AllocError),
    }
}
