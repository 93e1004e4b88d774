//! The check of a history.
ghost use Rattle.std.specs.Prelude.{◌≡◌, ◌≢◌, ◌↔◌, ℕ, IfOk};
ghost use Rattle.bay_core.specs.Legal.{Ordered, IsLegal};
ghost use Rattle.bay_core.specs.Replay.{FirstUnlawful};
ghost use Rattle.room_history.specs.Order.{IsFirstDisorder};

use crate::order::first_disorder;
use bay_core::{Entry, Layout, ReplayFault, State, replay};
use std::alloc::Global;
use thiserror::Error;

/// Why a list of entries is no legal history.
#[derive(Clone, Copy, Debug, PartialEq, Eq, Error)]
pub enum CheckFault {
    /// The entry at this index isn't after the one before it, by turn and then by rank. It is the
    /// first such entry.
    #[error("entry {0} is not after the one before it")]
    Order(usize),
    /// The entries are in order, and the one at this index isn't lawful after those before it. It
    /// is the first such entry.
    #[error("entry {0} is not lawful")]
    Unlawful(usize),
    /// Memory was wanting.
    #[error("out of memory")]
    Memory,
}

/// The contents of a new bay after these entries, where they are a legal history: each is lawful
/// after those before it, and greater by turn and then by rank than the one before it. It takes
/// memory from `alloc`.
///
/// # Errors
///
/// `Order` exactly where an entry isn't greater than the one before it; it names the first.
/// `Unlawful` exactly where there is none such, but an entry isn't lawful after those before it; it
/// names the first. `Memory` for want of memory.
pub fn check(
    alloc: Global,
    layout: Layout,
    blocks: u32,
    entries: &[Entry],
) -> Result<State, CheckFault>
    ensures legal { IfOk result (λ state. IsLegal layout blocks entries.now state) }
    ensures order { (i : ℕ) →
        (result ≡ Err (CheckFault.Order i)) ↔ IsFirstDisorder entries.now i }
    ensures unlawful { (i : ℕ) → result ≢ Err CheckFault.Memory →
        (result ≡ Err (CheckFault.Unlawful i))
        ↔ (Ordered entries.now × FirstUnlawful layout blocks entries.now i) }
{
    if let Some(i) = first_disorder(entries) {
        return Err(CheckFault::Order(i));
    }
    match replay(alloc, layout, blocks, entries) {
        Ok(state) => Ok(state),
        Err(ReplayFault::At(i)) => Err(CheckFault::Unlawful(i)),
        Err(ReplayFault::Memory) => Err(CheckFault::Memory),
    }
}
