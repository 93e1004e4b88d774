//! One such work for each worker of a crew.
ghost use Rattle.std.specs.Prelude.{◌≡◌, map, vec_len, IfOk};
ghost use Rattle.work_crew.specs.Crews.{AreNew};

use crate::twice::Twice;
use std::alloc::{AllocError, Global};

/// A work for each of so many workers, of which the first one gives this number. It takes memory.
///
/// # Errors
///
/// Want of memory alone.
pub fn works_of(alloc: Global, workers: u32, from: u64) -> Result<Vec<Twice>, AllocError>
    ensures many { IfOk result (λ works. vec_len works ≡ workers) }
    ensures new { IfOk result (λ works. AreNew (map (λ work. work) works.items)) }
{
    let mut works = Vec::new(alloc);
    for worker in 0..workers {
        let first = if worker == 0 { Some(from) } else { None };
        works.push(Twice::new(alloc, first, false)?)?;
    }
    Ok(works)
}
