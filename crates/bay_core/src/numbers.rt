//! The limits of a bay, and where its stack begins.

/// The most callers of a bay.
pub const MOST_CALLERS: u32 = 64;

/// The most draws of one caller: 2^48.
pub const MOST_DRAWS: u64 = 281_474_976_710_656;

/// The most items of one handful of pushes.
pub const MOST_ITEMS: usize = 32;

/// The most blocks of a bay.
pub const MOST_BLOCKS: u32 = 16_384;

/// The rank of the first push on an empty stack, 2^32; so much more than its items is the word `top` of
/// a bay.
pub const BOTTOM: u64 = 4_294_967_296;
