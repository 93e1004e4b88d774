//! Steps on touch words, which a caller makes outside all rooms.
ghost use Rattle.std.specs.Prelude.{◌≡◌, ℕ, ◌+◌, ◌-◌, ◌<◌, ◌≤◌, true, None};
ghost use Rattle.room_rule.specs.Use.{own};
ghost use Rattle.room_gate.specs.Stepping.{MayTouch, HasTouched, any, fits_with};

use crate::passes::Pass;
use crate::rooms::Rooms;
use room_rule::{Outcome, RoomUse};
use std::marker::Brand;

impl<U: RoomUse> Rooms<U> {
    /// Loads a touch word. It waits for nobody and takes no memory.
    pub fn touch_load<M: Outcome<U>>(&self, pass: &mut Pass<U>, word: usize, what: &M) -> u64
        requires own { pass.old.site ≡ self.now.site }
        requires word { word < U.meaning.words self.now.usage }
        requires can { MayTouch U.meaning self.now.usage pass.old word (λ n. n) any (M.then what.now) }
        ensures told { M.then what.now (own pass.old.user None) result result (own pass.new.user None) }
        ensures allowed { HasTouched U.meaning self.now.usage pass.old word result result pass.new }
        ensures touch { U.meaning.is_touch self.now.usage word ≡ true }
        ensures same { pass.new ≡ record pass.old { user = pass.new.user } }
    {
        self.load_as::<Brand, M>(&mut pass.seat, word, what)
    }

    /// Adds to a touch word, and answers what it was. It waits for nobody and takes no memory.
    pub fn touch_add<M: Outcome<U>>(
        &self,
        pass: &mut Pass<U>,
        word: usize,
        by: u64,
        what: &M,
    ) -> u64
        requires own { pass.old.site ≡ self.now.site }
        requires word { word < U.meaning.words self.now.usage }
        requires can { MayTouch U.meaning self.now.usage pass.old word (λ n. n + by) (fits_with by) (M.then what.now) }
        ensures told { M.then what.now (own pass.old.user None) result (result + by) (own pass.new.user None) }
        ensures allowed { HasTouched U.meaning self.now.usage pass.old word result (result + by) pass.new }
        ensures touch { U.meaning.is_touch self.now.usage word ≡ true }
        ensures same { pass.new ≡ record pass.old { user = pass.new.user } }
    {
        self.add_as::<Brand, M>(&mut pass.seat, word, by, what)
    }

    /// Takes from a touch word, and answers what it was. It waits for nobody and takes no memory.
    pub fn touch_sub<M: Outcome<U>>(
        &self,
        pass: &mut Pass<U>,
        word: usize,
        by: u64,
        what: &M,
    ) -> u64
        requires own { pass.old.site ≡ self.now.site }
        requires word { word < U.meaning.words self.now.usage }
        requires can { MayTouch U.meaning self.now.usage pass.old word (λ n. n - by) (λ n. by ≤ n) (M.then what.now) }
        ensures told { M.then what.now (own pass.old.user None) result (result - by) (own pass.new.user None) }
        ensures allowed { HasTouched U.meaning self.now.usage pass.old word result (result - by) pass.new }
        ensures touch { U.meaning.is_touch self.now.usage word ≡ true }
        ensures same { pass.new ≡ record pass.old { user = pass.new.user } }
    {
        self.sub_as::<Brand, M>(&mut pass.seat, word, by, what)
    }
}
