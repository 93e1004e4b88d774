//! The words of a bay, by their places.

/// The word `top`: 2^32 more than the items on the stack, where no push or pop is under way.
pub const TOP: usize = 0;

/// The word `head`: how many items were dequeued.
pub const HEAD: usize = 1;

/// The word `tail`: how many items were enqueued.
pub const TAIL: usize = 2;

/// The word `live`: the items in both lists, and the shares that all callers hold.
pub const LIVE: usize = 3;

/// Where each list has its own cells, the word of the first cell.
pub const CELLS: usize = 4;

/// Where blocks change hands, the word `free`: how many blocks neither list has.
pub const FREE: usize = 4;

/// The word `pages`: how many blocks the stack has.
pub const PAGES: usize = 5;

/// The word `low`: the number of the queue's first block.
pub const LOW: usize = 6;

/// The word `high`: the number after that of the queue's last block.
pub const HIGH: usize = 7;

/// The word of the first entry of the list of free blocks; the directories and the cells follow it.
pub const ENTRIES: usize = 8;
