//! What stands over the rooms.
ghost use Rattle.std.specs.Prelude.{◌≡◌, ℕ, ◌<◌};
ghost use Rattle.room_rule.specs.Use.{Own, Meaning};
ghost use Rattle.room_rule.specs.Laws.{Laws};

/// A use of rooms. Its meaning is over plain data, the words and slots of the use, a view for each
/// caller and the gate, and so are its laws: they speak of no thread, no token and no table. The laws
/// range over every room number. No clause says that `words`, `slots` and `start` return.
pub trait RoomUse: Drop {
    /// What one caller's view holds. No value of it is made.
    type View;

    /// What a slot may hold.
    type Slot: Drop;

    ghost ROOMS: { ℕ };

    /// The number of rooms, 1 to 7.
    const ROOMS: usize;

    ghost meaning: { Meaning Self Self.Slot Self.View };

    /// The number of user words.
    fn words(&self) -> usize
        ensures { result ≡ meaning.words self.now };

    /// The number of slots. Each holds None at first.
    fn slots(&self) -> usize
        ensures { result ≡ meaning.slots self.now };

    /// The starting value of a user word, in a set-up of so many callers.
    fn start(&self, word: usize, callers: u32) -> u64
        ensures { word < meaning.words self.now → result ≡ meaning.start self.now callers word };

    ghost laws: { Laws meaning };
}

/// What a step on a user word tells its caller, beyond the numbers of the step: the value holds
/// what these do not tell, as the item of a push.
pub trait Outcome<U: RoomUse> {
    /// Of what the caller has before (its view, and what the slot holds that it keeps), the word's
    /// old and new value, and what it has after.
    ghost then: { Self → Own U.Slot U.View → ℕ → ℕ → Own U.Slot U.View → Type 0 };
}
