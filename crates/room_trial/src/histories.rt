//! The one history of a trial, from the entries of its callers.
ghost use Rattle.std.specs.Prelude.{◌≡◌, IfOk, reverse};
ghost use Rattle.bay_core.specs.Noted.{entries};
ghost use Rattle.room_script.specs.Trials.{Outline};
ghost use Rattle.room_trial.specs.Histories.{IsPlayed};

use crate::crews::Played;
use bay_core::Entry;
use room_history::{MergeFault, merge};
use std::alloc::{AllocError, Global};

// The history that the callers' own entries are of.
pub(crate) fn merged(alloc: Global, played: &Played) -> Result<Vec<Entry>, AllocError>
    requires { (o : Outline) × IsPlayed o played.now }
    ensures { IfOk result (λ es. (o : Outline) (is : IsPlayed o played.now) → es.items ≡ reverse (entries is.bay.history)) }
{
    match merge(alloc, &played.entries) {
        Ok(history) => Ok(history),
        Err(MergeFault::Memory) => Err(AllocError),
        Err(MergeFault::Twin { .. }) => unreachable!(),
    }
}
