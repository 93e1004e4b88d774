//! The items of a handful, in room for as many as it may have.
ghost use Rattle.std.specs.Prelude.{◌≡◌, ◌≤◌, length, take};
ghost use Rattle.bay_core.specs.declared.numbers.TheConstants.{MOST_ITEMS};

use bay_core::MOST_ITEMS;
use std::marker::Model;

/// The items of a handful. Contracts see them as a list.
#[derive(Drop)]
pub(crate) struct Items {
    room: [u64; MOST_ITEMS],
    count: usize,
}

impl Model for Items {
    ghost use Rattle.std.specs.Prelude.{ℕ, ◌≤◌, List, take};
    ghost use Rattle.bay_core.specs.declared.numbers.TheConstants.{MOST_ITEMS};

    ghost Value = { List ℕ };

    ghost view = { λ i. take i.count i.room };

    ghost invariant = { λ i. i.count ≤ MOST_ITEMS };
}

impl Items {
    /// The same items.
    pub(crate) fn of(items: &[u64]) -> Items
        requires { length items.now ≤ MOST_ITEMS }
        ensures { result ≡ items.now }
    {
        let mut room = [0; MOST_ITEMS];
        for i in 0..items.len() {
            room[i] = items[i];
        }
        Items {
            room,
            count: items.len(),
        }
    }

    /// How many they are.
    pub(crate) fn len(&self) -> usize
        ensures { result ≡ length self.now }
    {
        self.count
    }

    /// The items in a row.
    pub(crate) fn as_slice(&self) -> &[u64]
        ensures { result.now ≡ self.now }
    {
        &self.room[..self.count]
    }

    /// The items with the room that they have, and how many they are.
    pub(crate) fn parts(&self) -> ([u64; MOST_ITEMS], usize)
        ensures items { take result.1 result.0 ≡ self.now }
        ensures count { result.1 ≡ length self.now }
    {
        (self.room, self.count)
    }
}
