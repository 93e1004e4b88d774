//! An insider's steps on the user words.
ghost use Rattle.std.specs.Prelude.{◌≡◌, ℕ, ◌+◌, ◌-◌, ◌<◌, ◌≤◌};
ghost use Rattle.room_gate.specs.Stepping.{MayStep, HasStepped, own_of, any, fits_with};

use crate::inside::Inside;
use crate::rooms::Rooms;
use room_rule::{Outcome, RoomUse};
use std::marker::Brand;

impl<U: RoomUse> Rooms<U> {
    /// Loads a user word, for an insider. `what` says what the step is to the use. It waits for
    /// nobody and takes no memory.
    pub fn load<M: Outcome<U>>(&self, inside: &mut Inside<U>, word: usize, what: &M) -> u64
        requires own { inside.old.caller.site ≡ self.now.site }
        requires word { word < U.meaning.words self.now.usage }
        requires can { MayStep U.meaning self.now.usage inside.old word (λ n. n) any (M.then what.now) }
        ensures told { M.then what.now (own_of inside.old) result result (own_of inside.new) }
        ensures allowed { HasStepped U.meaning self.now.usage inside.old word result result inside.new }
        ensures same { inside.new ≡ record inside.old { caller = record inside.old.caller { user = inside.new.caller.user }; held = inside.new.held } }
    {
        self.load_as::<Brand, M>(&mut inside.seat, word, what)
    }

    /// Stores a user word, for an insider. It waits for nobody and takes no memory.
    pub fn store<M: Outcome<U>>(&self, inside: &mut Inside<U>, word: usize, value: u64, what: &M)
        requires own { inside.old.caller.site ≡ self.now.site }
        requires word { word < U.meaning.words self.now.usage }
        requires can { MayStep U.meaning self.now.usage inside.old word (λ _. value) any (M.then what.now) }
        ensures told { (old : ℕ) × M.then what.now (own_of inside.old) old value (own_of inside.new) × HasStepped U.meaning self.now.usage inside.old word old value inside.new }
        ensures same { inside.new ≡ record inside.old { caller = record inside.old.caller { user = inside.new.caller.user }; held = inside.new.held } }
    {
        self.store_as::<Brand, M>(&mut inside.seat, word, value, what);
    }

    /// Adds to a user word, for an insider, and answers what it was. It waits for nobody and takes
    /// no memory.
    pub fn add<M: Outcome<U>>(&self, inside: &mut Inside<U>, word: usize, by: u64, what: &M) -> u64
        requires own { inside.old.caller.site ≡ self.now.site }
        requires word { word < U.meaning.words self.now.usage }
        requires can { MayStep U.meaning self.now.usage inside.old word (λ n. n + by) (fits_with by) (M.then what.now) }
        ensures told { M.then what.now (own_of inside.old) result (result + by) (own_of inside.new) }
        ensures allowed { HasStepped U.meaning self.now.usage inside.old word result (result + by) inside.new }
        ensures same { inside.new ≡ record inside.old { caller = record inside.old.caller { user = inside.new.caller.user }; held = inside.new.held } }
    {
        self.add_as::<Brand, M>(&mut inside.seat, word, by, what)
    }

    /// Takes from a user word, for an insider, and answers what it was. It waits for nobody and
    /// takes no memory.
    pub fn sub<M: Outcome<U>>(&self, inside: &mut Inside<U>, word: usize, by: u64, what: &M) -> u64
        requires own { inside.old.caller.site ≡ self.now.site }
        requires word { word < U.meaning.words self.now.usage }
        requires can { MayStep U.meaning self.now.usage inside.old word (λ n. n - by) (λ n. by ≤ n) (M.then what.now) }
        ensures told { M.then what.now (own_of inside.old) result (result - by) (own_of inside.new) }
        ensures allowed { HasStepped U.meaning self.now.usage inside.old word result (result - by) inside.new }
        ensures same { inside.new ≡ record inside.old { caller = record inside.old.caller { user = inside.new.caller.user }; held = inside.new.held } }
    {
        self.sub_as::<Brand, M>(&mut inside.seat, word, by, what)
    }
}
