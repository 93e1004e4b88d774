//! What a work keeps of the items that came back to it.
ghost use Rattle.std.specs.Prelude.{◌≡◌, ◌-◌, ◌≤◌, [], ◌∷◌, ◌++◌, IfOk, OnOk};
ghost use Rattle.work_crew.specs.Keeping.{HandsOut};

use std::alloc::{AllocError, Global};
use std::marker::Model;

/// Items that a work keeps until they are handled, and room for more. The room is taken beforehand, so
/// that keeping an item takes no memory, as the trait `Work` asks.
#[derive(Drop)]
pub struct Kept {
    items: Vec<u64>,
    space: usize,
}

impl Model for Kept {
    ghost use Rattle.std.specs.Prelude.{◌-◌, ◌≤◌, vec_len, vec_capacity};
    ghost use Rattle.work_crew.specs.Keeping.{Keeping};

    ghost Value = { Keeping };

    ghost view = { λ s. record { items = s.items.items; spare = s.space - vec_len s.items } };

    ghost invariant = { λ s. (vec_len s.items ≤ s.space) × (s.space ≤ vec_capacity s.items) };
}

impl Kept {
    /// No items, and room for so many. It takes memory.
    ///
    /// # Errors
    ///
    /// Want of memory alone.
    pub fn new(alloc: Global, room: usize) -> Result<Kept, AllocError>
        ensures { IfOk result (λ kept. kept ≡ record { items = []; spare = room }) }
    {
        let items = Vec::with_capacity(alloc, room)?;
        Ok(Kept { items, space: room })
    }

    /// Makes room for so many items beside those that it has. It takes memory.
    ///
    /// # Errors
    ///
    /// Want of memory alone: the items are as they were.
    pub fn widen(&mut self, room: usize) -> Result<(), AllocError>
        ensures items { self.new.items ≡ self.old.items }
        ensures room { OnOk result (room ≤ self.new.spare) }
    {
        self.items.reserve(room)?;
        self.space = self.space.max(self.items.len() + room);
        Ok(())
    }

    /// Keeps an item, for which it has room. It takes no memory.
    pub fn keep(&mut self, item: u64)
        requires { 1 ≤ self.old.spare }
        ensures { self.new ≡ record { items = self.old.items ++ item ∷ []; spare = self.old.spare - 1 } }
    {
        self.items.push_reserved(item);
    }

    /// Hands out the item that it kept last, or none where there is none. It takes no memory.
    pub fn hand_out(&mut self) -> Option<u64>
        ensures { HandsOut self.old self.new result }
    {
        self.items.pop()
    }
}
