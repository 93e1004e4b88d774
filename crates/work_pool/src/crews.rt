//! How many workers share a work, and over which bay.
use bay_core::Layout;

/// A crew: its workers, and the bay that they share.
#[derive(Clone, Copy, Debug, PartialEq, Eq)]
pub struct Crew {
    /// How many workers there are, 1 to 16.
    pub workers: u32,
    /// How many blocks the bay has, 1 to 16384, and at least 2 where they change hands.
    pub blocks: u32,
    /// How the bay's cells are laid out.
    pub layout: Layout,
    /// How many draws each worker has, 1 to 2^48.
    pub draws: u64,
}
