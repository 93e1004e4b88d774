//! Entries in the order of their turns, and in one turn of their ranks.
ghost use Rattle.std.specs.Prelude.{◌↔◌, IsTrue, MatchOption};
ghost use Rattle.bay_core.specs.Legal.{Before, Ordered};
ghost use Rattle.room_history.specs.Order.{IsFirstDisorder};

use bay_core::Entry;

// Whether the first of two entries is of an earlier turn, or of the same turn and a lesser rank.
fn is_before(one: &Entry, other: &Entry) -> bool
    ensures { IsTrue result ↔ Before one.now other.now }
{
    one.turn < other.turn || (one.turn == other.turn && one.rank < other.rank)
}

/// The first index at which the entry isn't after the one before it. `None` where there is none.
pub fn first_disorder(entries: &[Entry]) -> Option<usize>
    ensures { MatchOption result (Ordered entries.now) (λ i. IsFirstDisorder entries.now i) }
{
    for i in 1..entries.len() {
        if !is_before(&entries[i - 1], &entries[i]) {
            return Some(i);
        }
    }
    None
}
