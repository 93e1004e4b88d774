//! Steps of the key's holder on the user words.
ghost use Rattle.std.specs.Prelude.{◌≡◌, ℕ, ◌<◌, false, None, slice_index, slice_set};
ghost use Rattle.room_rule.specs.Use.{own};
ghost use Rattle.room_gate.specs.Stepping.{MayExit, HasExited};

use crate::keys::Key;
use crate::rooms::Rooms;
use room_rule::{Outcome, RoomUse};
use std::marker::Brand;

impl<U: RoomUse> Rooms<U> {
    /// Loads a user word, for the key's holder, who knows it unless it is a touch word. It waits
    /// for nobody and takes no memory.
    pub fn key_load<M: Outcome<U>>(&self, key: &mut Key<U>, word: usize, what: &M) -> u64
        requires own { key.old.caller.site ≡ self.now.site }
        requires word { word < U.meaning.words self.now.usage }
        requires can { MayExit U.meaning self.now.usage key.old word (λ n. n) (M.then what.now) }
        ensures shown { U.meaning.is_touch self.now.usage word ≡ false → result ≡ slice_index key.old.words word }
        ensures told { M.then what.now (own key.old.caller.user None) result result (own key.new.caller.user None) }
        ensures allowed { HasExited U.meaning self.now.usage key.old word result result key.new }
        ensures same { key.new ≡ record key.old { caller = record key.old.caller { user = key.new.caller.user } } }
    {
        self.load_as::<Brand, M>(&mut key.seat, word, what)
    }

    /// Stores a user word, for the key's holder. It waits for nobody and takes no memory.
    pub fn key_store<M: Outcome<U>>(&self, key: &mut Key<U>, word: usize, value: u64, what: &M)
        requires own { key.old.caller.site ≡ self.now.site }
        requires word { word < U.meaning.words self.now.usage }
        requires can { MayExit U.meaning self.now.usage key.old word (λ _. value) (M.then what.now) }
        ensures told { (old : ℕ) × (U.meaning.is_touch self.now.usage word ≡ false → old ≡ slice_index key.old.words word) × M.then what.now (own key.old.caller.user None) old value (own key.new.caller.user None) × HasExited U.meaning self.now.usage key.old word old value key.new }
        ensures same { key.new ≡ record key.old { caller = record key.old.caller { user = key.new.caller.user }; words = slice_set key.old.words word value } }
    {
        self.store_as::<Brand, M>(&mut key.seat, word, value, what);
    }
}
