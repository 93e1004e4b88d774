//! Work that a caller does on items, by which it comes to further items.
ghost use Rattle.std.specs.Prelude.{◌≡◌, ◌↔◌, ◌≤◌, ◌<◌, ℕ, false, length, OnOk, OnErr};
ghost use Rattle.bay_core.specs.declared.numbers.TheConstants.{MOST_ITEMS};
ghost use Rattle.work_pool.specs.Standing.{Standing, Handles, Gives, Keeps, Unkeeps, Lacks};

use std::alloc::AllocError;

/// Work on items. It has items to give, keeps those that come back, and handles items, which may add
/// to those that it has to give. No call waits.
pub trait Work {
    /// What the work was made with, as plain data.
    type Made;

    // The items given, to be given, kept and handled, and how many more can be kept.
    ghost stands: { Self → Standing };

    // Handling the first number may make the second one to be given.
    ghost leads: { Self → ℕ → ℕ → Type 0 };

    // What it was made with.
    ghost made: { Self → Self.Made };

    /// Handles one item. It may add items that are to be given after those that were, each of which
    /// the handled one leads to, and has room to keep all that are to be given.
    ///
    /// # Errors
    ///
    /// Want of memory: the item is not handled, and the work is of no more use.
    fn handle(&mut self, item: u64) -> Result<(), AllocError>
        ensures done { OnOk result (Handles (leads self.old item) item (stands self.old) (stands self.new)) }
        ensures failed { OnErr result (Lacks (stands self.old) (stands self.new)) }
        ensures leads { (y : ℕ) (x : ℕ) → leads self.new y x ↔ leads self.old y x }
        ensures made { made self.new ≡ made self.old };

    /// Gives the first item that is to be given, or none where there is none. It takes no memory.
    fn give(&mut self) -> Option<u64>
        ensures gives { Gives (stands self.old) (stands self.new) result }
        ensures leads { (y : ℕ) (x : ℕ) → leads self.new y x ↔ leads self.old y x }
        ensures made { made self.new ≡ made self.old };

    /// Keeps an item, for which it has room. It takes no memory.
    fn keep(&mut self, item: u64)
        requires room { 1 ≤ (stands self.old).spare }
        ensures keeps { Keeps item (stands self.old) (stands self.new) }
        ensures leads { (y : ℕ) (x : ℕ) → leads self.new y x ↔ leads self.old y x }
        ensures made { made self.new ≡ made self.old };

    /// Hands out one of the items kept, or none where there is none. It takes no memory.
    fn kept(&mut self) -> Option<u64>
        ensures unkeeps { Unkeeps (stands self.old) (stands self.new) result }
        ensures leads { (y : ℕ) (x : ℕ) → leads self.new y x ↔ leads self.old y x }
        ensures made { made self.new ≡ made self.old };

    /// Whether as many items are to be given as one offer may have, 32, as far as the work tells: it
    /// answers false only where fewer are. A drive over the stack then has it handle what it keeps before
    /// it offers. A work that does not tell answers true. It takes no memory.
    fn has_handful(&self) -> bool
        ensures { result ≡ false → length (stands self.now).to_give < MOST_ITEMS }
    {
        true
    }
}
