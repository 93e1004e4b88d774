//! Callers that make their stays at the same time, each in a thread of its own.
ghost use Rattle.std.specs.Prelude.{◌≡◌, ℕ, ◌+◌, ◌*◌, ◌^◌, ◌<◌, ◌≤◌, length, sum, slice_index, slice_index_or, vec_len, IfOk};
ghost use Rattle.room_gate.specs.Together.{EachGives};
ghost use Rattle.stay_tally.specs.Crews.{room_of, first_room, all_in, HasStayed, IsReady};

use crate::stays::stay;
use crate::uses::Tally;
use room_gate::{Pass, Rooms};
use std::alloc::{AllocError, Global};
use std::sync::Wait;
use std::thread;
use std::thread::Threads;

/// How many draws each pass may make: more than there are numbers of stays.
const DRAWS: u64 = 1_099_511_627_776;

// The room of a caller's stay `round`, of which it began with `from`.
fn room_at(from: usize, round: u32, spread: bool) -> usize
    requires { from < 64 }
    ensures value { result ≡ room_of spread from round }
    ensures exists { result < 4 }
{
    if spread {
        (from + round as usize) % 4
    } else {
        from % 4
    }
}

// Makes that many stays, which the pass must have draws for.
fn rounds<R: Wait>(
    rooms: &Rooms<Tally>,
    rt: &R,
    pass: Pass<Tally>,
    from: usize,
    rounds: u32,
    spread: bool,
) -> Pass<Tally>
    requires own { pass.site ≡ rooms.now.site }
    requires from { from < 64 }
    requires draws { pass.draws + rounds ≤ pass.limit }
    requires wide { length pass.user.counted ≡ 4 }
    ensures { HasStayed spread from rounds pass result }
{
    let mut pass = pass;
    for round in 0..rounds {
        let (after, _) = stay(rooms, rt, pass, room_at(from, round, spread));
        pass = after;
    }
    pass
}

// Makes all stays of a caller.
fn all_rounds<R: Wait>(
    rooms: &Rooms<Tally>,
    rt: &R,
    pass: Pass<Tally>,
    stays: u32,
    spread: bool,
) -> Pass<Tally>
    requires { IsReady rooms.now.site stays pass }
    ensures { HasStayed spread (first_room spread pass.who) stays pass result }
{
    let from = if spread { pass.who() as usize } else { 0 };
    rounds(rooms, rt, pass, from, stays, spread)
}

// Makes all stays of all callers, each in a thread.
fn in_threads<R: Threads + Wait + Sync>(
    rooms: &Rooms<Tally>,
    rt: &R,
    passes: Vec<Pass<Tally>>,
    stays: u32,
    spread: bool,
) -> Result<Vec<Pass<Tally>>, AllocError>
    requires { (i : ℕ) (p : _) → i < vec_len passes → p ≡ slice_index_or passes.items i p → IsReady rooms.now.site stays p }
    ensures len { IfOk result (λ v. vec_len v ≡ vec_len passes) }
    ensures each { IfOk result (λ v. EachGives (λ p. HasStayed spread (first_room spread p.who) stays p) passes.items v.items) }
{
    thread::map_vec(
        rt,
        passes,
        &|pass| { all_rounds(rooms, rt, pass, stays, spread) },
    )
}

/// Sets up the four rooms, has `callers` callers, 1 to 64, make `stays` stays each at the same time,
/// and closes the rooms. The answer is the four words: how many stays were counted in each room. Where
/// `spread` is set, caller c makes its stay k in room (c + k) % 4, and else all stays are in room 0.
///
/// It waits for the callers, each of which runs in a thread of its own where one can be made.
///
/// # Errors
///
/// Want of memory alone; where it comes at the close, all stays were made.
pub fn tally<R: Threads + Wait + Sync>(
    rt: &R,
    alloc: Global,
    callers: u32,
    stays: u32,
    spread: bool,
) -> Result<Vec<u64>, AllocError>
    requires { callers ≤ 64 }
    ensures len { IfOk result (λ v. vec_len v ≡ 4) }
    ensures words { IfOk result (λ v. (r : ℕ) → r < 4 → slice_index v.items r ≡ all_in spread callers stays r) }
{
    let (rooms, passes) = Rooms::<Tally>::set_up(alloc, Tally, callers, DRAWS)?;
    let passes = in_threads(&rooms, rt, passes, stays, spread)?;
    match rooms.close(alloc, passes) {
        Ok(left) => Ok(left.words),
        Err(_) => Err(AllocError),
    }
}
