//! Single steps on a user word, each of which tells what its caller picks.
ghost use Rattle.std.specs.Prelude.{◌≡◌, ℕ, ◌+◌, ◌-◌, ◌%◌, ◌^◌, ◌<◌};
ghost use Rattle.room_rule.specs.Told.{Seated};
ghost use Rattle.room_gate.specs.Stepping.{Permits};

use crate::rooms::Rooms;
use atomic_table::{Play, Seat};
use room_rule::{Outcome, RoomUse, Shown, user_place};
use std::marker::{Brand, PhantomData};

/// What a step on a user word tells. Each call picks it.
pub(crate) trait Tells<S, V> {
    /// Of the seat before, the number found (at a store, the number stored), and the seat after.
    ghost tells: { Seated S V → ℕ → Seated S V → Type 0 };
}

impl<S, V> Tells<S, V> for Brand {
    ghost tells = { λ _ _ _. Unit {0} };
}

/// A step on a user word. No value of it is made.
pub(crate) struct Uses<B> {
    pick: PhantomData<B>,
}

impl<S, V, B: Tells<S, V>> Play<Option<S>, Shown<V>> for Uses<B> {
    ghost then = { λ _ before found after. B.tells before found after };
}

impl<U: RoomUse> Rooms<U> {
    /// Loads the word. `what` is for the pick alone.
    pub(crate) fn load_as<B: Tells<U::Slot, U::View>, M: Outcome<U>>(
        &self,
        seat: &mut Seat<Option<U::Slot>, Shown<U::View>>,
        word: usize,
        _what: &M,
    ) -> u64
        requires own { seat.old.table_id ≡ self.now.site }
        requires word { word < U.meaning.words self.now.usage }
        requires step { Permits U.meaning U.ROOMS self.now seat.old.me word (λ n. n) (B.tells seat.old.me) }
        ensures own { seat.new.table_id ≡ seat.old.table_id }
        ensures told { B.tells seat.old.me result seat.new.me }
    {
        let table = &self.table.shared;
        table.load::<Uses<B>>(seat, user_place(U::ROOMS, word))
    }

    /// Stores the word.
    pub(crate) fn store_as<B: Tells<U::Slot, U::View>, M: Outcome<U>>(
        &self,
        seat: &mut Seat<Option<U::Slot>, Shown<U::View>>,
        word: usize,
        value: u64,
        _what: &M,
    )
        requires own { seat.old.table_id ≡ self.now.site }
        requires word { word < U.meaning.words self.now.usage }
        requires step { Permits U.meaning U.ROOMS self.now seat.old.me word (λ _. value) (λ _. B.tells seat.old.me value) }
        ensures own { seat.new.table_id ≡ seat.old.table_id }
        ensures told { B.tells seat.old.me value seat.new.me }
    {
        let table = &self.table.shared;
        table.store::<Uses<B>>(seat, user_place(U::ROOMS, word), value);
    }

    /// Adds to the word, and answers what it was.
    pub(crate) fn add_as<B: Tells<U::Slot, U::View>, M: Outcome<U>>(
        &self,
        seat: &mut Seat<Option<U::Slot>, Shown<U::View>>,
        word: usize,
        by: u64,
        _what: &M,
    ) -> u64
        requires own { seat.old.table_id ≡ self.now.site }
        requires word { word < U.meaning.words self.now.usage }
        requires step { Permits U.meaning U.ROOMS self.now seat.old.me word (λ n. (n + by) % 2 ^ 64) (B.tells seat.old.me) }
        ensures own { seat.new.table_id ≡ seat.old.table_id }
        ensures told { B.tells seat.old.me result seat.new.me }
    {
        let table = &self.table.shared;
        table.fetch_add::<Uses<B>>(seat, user_place(U::ROOMS, word), by)
    }

    /// Takes from the word, and answers what it was.
    pub(crate) fn sub_as<B: Tells<U::Slot, U::View>, M: Outcome<U>>(
        &self,
        seat: &mut Seat<Option<U::Slot>, Shown<U::View>>,
        word: usize,
        by: u64,
        _what: &M,
    ) -> u64
        requires own { seat.old.table_id ≡ self.now.site }
        requires word { word < U.meaning.words self.now.usage }
        requires step { Permits U.meaning U.ROOMS self.now seat.old.me word (λ n. (n + (2 ^ 64 - by)) % 2 ^ 64) (B.tells seat.old.me) }
        ensures own { seat.new.table_id ≡ seat.old.table_id }
        ensures told { B.tells seat.old.me result seat.new.me }
    {
        let table = &self.table.shared;
        table.fetch_sub::<Uses<B>>(seat, user_place(U::ROOMS, word), by)
    }
}
