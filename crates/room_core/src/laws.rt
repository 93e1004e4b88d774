//! Laws of every run: each is the contract of a function that does nothing.
ghost use Rattle.std.specs.Prelude.{ℕ, ◌≤◌, ◌+◌, ◌≡◌, ◌↔◌, List, reverse, Option, Some};
ghost use Rattle.room_core.specs.Machine.{phase_of};
ghost use Rattle.room_core.specs.Runs.{Moment, run, start};
ghost use Rattle.room_core.specs.Trace.{trace, occupant, last_opening, all_opened};
ghost use Rattle.room_core.specs.Order.{InEveryRun, trace_of};
ghost use Rattle.room_core.specs.Occupants.{Occupies};
ghost use Rattle.room_core.specs.Apart.{IsApart};
ghost use Rattle.room_core.specs.ExitOnce.{IsOncePerOpening};
ghost use Rattle.room_core.specs.Admission.{IsAdmission};
ghost use Rattle.room_core.specs.Choice.{IsCyclic};
ghost use Rattle.room_core.specs.Openings.{opened, last_opened};
ghost use Rattle.room_core.specs.Bypass.{IsPrompt};
ghost use Rattle.room_core.specs.Counters.{IsBounded};
ghost use Rattle.room_core.specs.Wrong.{two_rooms, early_exit, no_opening, own_room_first, passed_by};

use crate::acts::Act;
use crate::items::Item;
use crate::phases::Phase;

/// In every run all occupants are of one room, and of none while exit code runs.
pub fn every_run_is_apart()
    ensures { InEveryRun (λ _ moments. IsApart (trace_of moments)) }
{}

/// In every run the exit code runs once for each opening, directly after its last departure.
pub fn every_run_exits_once()
    ensures { InEveryRun (λ _ moments. IsOncePerOpening (trace_of moments)) }
{}

/// In every run the openings let in the tickets in their order, and nobody enters without.
pub fn every_run_admits_in_order()
    ensures { InEveryRun (λ _ moments. IsAdmission moments) }
{}

/// In every run the next room is the first one round that has somebody to let in.
pub fn every_run_is_cyclic()
    ensures { InEveryRun IsCyclic }
{}

/// In every run a ticket is let in at most as many turns after its caller's first look as there are
/// rooms.
pub fn every_run_is_prompt()
    ensures { InEveryRun IsPrompt }
{}

/// Who is inside has looked since its draw, and got in at most as many turns after its first look as
/// there are rooms.
pub fn nobody_is_passed()
    ensures looked { (rooms callers : ℕ) (acts : List (ℕ × Act))
        → (c room ticket turn to : ℕ) (first : Option ℕ) → let s = (run acts (start rooms callers)).state in
        phase_of s c ≡ Phase.Inside room ticket first turn to
        → (seen : ℕ) × (first ≡ Some seen) }
    ensures passed { (rooms callers : ℕ) (acts : List (ℕ × Act)) → rooms ≤ 7
        → (c room ticket first turn to : ℕ) → let s = (run acts (start rooms callers)).state in
        phase_of s c ≡ Phase.Inside room ticket (Some first) turn to
        → (first ≤ turn) × (turn ≤ first + rooms) }
{}

/// No counter of a run of 1 to 7 rooms and up to 64 callers comes near its end.
pub fn every_run_is_bounded()
    ensures { (rooms callers : ℕ) (acts : List (ℕ × Act)) → rooms ≤ 7 → callers ≤ 64
        → IsBounded (run acts (start rooms callers)).state }
{}

/// What is told of a trace from its latest item back, as the gate is, is what it says in its order.
pub fn a_trace_reads_backward()
    ensures items { (history : List Moment) → trace_of (reverse history) ≡ reverse (trace history) }
    ensures openings { (past : List Item) → all_opened past ≡ opened (reverse past) }
    ensures last { (past : List Item) → last_opening past ≡ last_opened (reverse past) }
    ensures occupants { (past : List Item) (c room : ℕ)
        → (occupant c past ≡ Some room) ↔ Occupies (reverse past) c room }
{}

/// Each of these laws refuses something.
pub fn wrong_runs_are_refused()
    ensures apart { IsApart two_rooms → ⊥ }
    ensures exit_once { IsOncePerOpening early_exit → ⊥ }
    ensures admission { IsAdmission no_opening → ⊥ }
    ensures cyclic { IsCyclic 2 own_room_first → ⊥ }
    ensures prompt { IsPrompt 1 passed_by → ⊥ }
{}
