//! Crews by their numbers.
ghost use Rattle.std.specs.Prelude.{◌≡◌, ◌≤◌, ◌^◌};
ghost use Rattle.work_pool.specs.Crews.{IsCrew};

use bay_core::Layout;
use work_pool::Crew;

/// A crew of so many workers, 1 to 16, over a bay of so many blocks, 1 to 16384 and at least 2 with `Paged`,
/// each with so many draws, 1 to 2^48. It takes no memory.
pub fn crew_of(workers: u32, layout: Layout, blocks: u32, draws: u64) -> Crew
    requires workers { (1 ≤ workers) × (workers ≤ 16) }
    requires blocks { (1 ≤ blocks) × (blocks ≤ 16384) }
    requires paged { layout ≡ Layout.Paged → 2 ≤ blocks }
    requires draws { (1 ≤ draws) × (draws ≤ 2 ^ 48) }
    ensures is { result ≡ record { workers = workers; blocks = blocks; layout = layout; draws = draws } }
    ensures crew { IsCrew result }
{
    Crew {
        workers,
        blocks,
        layout,
        draws,
    }
}
