//! The merge of callers' entries.
ghost use Rattle.std.specs.Prelude.{◌≡◌, ◌≢◌, ◌↔◌, ℕ, List, IfOk, OnOk, MatchResult, map, reverse};
ghost use Rattle.std.specs.List.Sorted.{IsPermutation};
ghost use Rattle.bay_core.specs.declared.calls.Layout.{Layout};
ghost use Rattle.bay_core.specs.declared.calls.Entry.{Entry};
ghost use Rattle.bay_core.specs.declared.calls.Noted.{Noted};
ghost use Rattle.bay_core.specs.Legal.{Ordered};
ghost use Rattle.bay_core.specs.Noted.{entries};
ghost use Rattle.bay_core.specs.History.{IsHistory};
ghost use Rattle.room_history.specs.Merging.{given, IsRising, IsLeastTwin};
ghost use Rattle.bay_core.specs.Told.{AreOwn};

use crate::order::first_disorder;
use bay_core::Entry;
use std::alloc::{AllocError, Global};
use thiserror::Error;

/// Why lists of entries weren't merged.
#[derive(Clone, Copy, Debug, PartialEq, Eq, Error)]
pub enum MergeFault {
    /// Two entries have this turn and this rank, and no two have lesser ones.
    #[error("two entries have turn {turn} and rank {rank}")]
    Twin {
        /// The turn of both.
        turn: u64,
        /// The rank of both.
        rank: u64,
    },
    /// Memory was wanting.
    #[error("out of memory")]
    Memory,
}

/// All entries of the lists, each as often as it is given, by their turns and in one turn by their
/// ranks. The own entries of all callers of one bay, caller by caller, become the bay's history.
/// It takes memory from `alloc`.
///
/// # Errors
///
/// `Twin` exactly where two entries share turn and rank; it names the least such pair. It never
/// comes for the entries of one bay. `Memory` for want of memory.
pub fn merge(alloc: Global, per_caller: &[Vec<Entry>]) -> Result<Vec<Entry>, MergeFault>
    ensures each { IfOk result (λ all.
        IsPermutation (given (map (λ list. list.items) per_caller.now)) all.items) }
    ensures ordered { IfOk result (λ all. Ordered all.items) }
    ensures only { (es : List Entry) → Ordered es →
        IsPermutation es (given (map (λ list. list.items) per_caller.now)) →
        MatchResult result (λ all. all.items ≡ es) (λ e. e ≡ MergeFault.Memory) }
    ensures history { (layout : Layout) (blocks : ℕ) (h : List Noted) → IsHistory layout blocks h →
        AreOwn (map (λ list. list.items) per_caller.now) (reverse (entries h)) →
        MatchResult result (λ all. all.items ≡ reverse (entries h)) (λ e. e ≡ MergeFault.Memory) }
    ensures twin { (turn rank : ℕ) → result ≢ Err MergeFault.Memory →
        (result ≡ Err (MergeFault.Twin turn rank))
        ↔ IsLeastTwin (given (map (λ list. list.items) per_caller.now)) turn rank }
{
    let Ok(all) = sorted(alloc, per_caller) else {
        return Err(MergeFault::Memory);
    };
    match first_disorder(&all) {
        Some(i) => Err(MergeFault::Twin {
            turn: all[i].turn,
            rank: all[i].rank,
        }),
        None => Ok(all),
    }
}

// All entries, none of them before an earlier one.
fn sorted(alloc: Global, per_caller: &[Vec<Entry>]) -> Result<Vec<Entry>, AllocError>
    ensures each { IfOk result (λ all.
        IsPermutation (given (map (λ list. list.items) per_caller.now)) all.items) }
    ensures rising { IfOk result (λ all. IsRising all.items) }
{
    let mut all = gathered(alloc, per_caller)?;
    all.sort_by_key(|entry| (entry.turn, entry.rank))?;
    Ok(all)
}

// All entries, list by list.
fn gathered(alloc: Global, per_caller: &[Vec<Entry>]) -> Result<Vec<Entry>, AllocError>
    ensures { IfOk result (λ all. all.items ≡ given (map (λ list. list.items) per_caller.now)) }
{
    let mut all = Vec::new(alloc);
    for list in per_caller {
        all.extend_from_slice(list)?;
    }
    Ok(all)
}
