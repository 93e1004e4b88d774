//! The close: all passes go into one seat, and the table is opened up.
ghost use Rattle.std.specs.Prelude.{◌≡◌, ℕ, ◌+◌, ◌*◌, ◌<◌, ◌≤◌, [], ◌∷◌, map, drop, length, false, slice_index_or, vec_capacity, IfOk, IfErr};
ghost use Rattle.std.specs.Slots.{slots_items, slots_filled, slots_len, IsFull};
ghost use Rattle.room_rule.specs.Use.{IsAt};
ghost use Rattle.room_rule.specs.Closes.{AreApart};
ghost use Rattle.room_rule.specs.declared.views.Role.TheVariants.{Keeper};
ghost use Rattle.room_gate.specs.Shows.{Caller};
ghost use Rattle.room_gate.specs.Closing.{AreAll, last_of, IsLeft};

use crate::passes::Pass;
use crate::plays::{Keeps, TakesIn};
use crate::rooms::Rooms;
use atomic_table::{Closed, Seat};
use room_rule::{Plan, RoomUse, Shown};
use std::alloc::{AllocError, Global};

/// What is left of rooms that were closed.
#[derive(Drop)]
pub struct Final<U: RoomUse> {
    /// The use that the rooms were set up for.
    pub usage: U,
    /// The user words, in their order.
    pub words: Vec<u64>,
    /// What each slot holds, in their order.
    pub slots: Vec<Option<U::Slot>>,
}

// The words of a closed table from a place on, in memory that was taken before.
fn words_from<T>(
    closed: &Closed<Option<T>, Global>,
    from: usize,
    to: usize,
    room: Vec<u64>,
) -> Vec<u64>
    requires full { IsFull closed.now.words }
    requires to { (from ≤ to) × (slots_len closed.now.words ≡ to) }
    requires room { (room.items ≡ []) × (to ≤ from + vec_capacity room) }
    ensures { result.items ≡ drop from (slots_items closed.now.words) }
{
    let mut words = room;
    for place in from..to {
        let Ok(()) = words.push(closed.word(place)) else {
            unreachable!()
        };
    }
    words
}

// What each slot of a closed table holds, in memory that was taken before.
fn take_slots<T: Drop>(
    closed: &mut Closed<Option<T>, Global>,
    room: Vec<Option<T>>,
) -> Vec<Option<T>>
    requires full { IsFull closed.old.slots }
    requires room { (room.items ≡ []) × (slots_len closed.old.slots ≤ vec_capacity room) }
    ensures slots { result.items ≡ slots_items closed.old.slots }
    ensures empty { (k : ℕ) → k < slots_len closed.new.slots → slice_index_or (slots_filled closed.new.slots) k false ≡ false }
{
    let mut slots = room;
    for slot in 0..closed.slot_count() {
        let Ok(()) = slots.push(closed.take(slot)) else {
            unreachable!()
        };
    }
    slots
}

impl<U: RoomUse> Rooms<U> {
    /// Takes the rooms apart, with the passes of all their callers. It takes the memory of the
    /// answer first; where there is none, it hands back the rooms and the passes.
    pub fn close(
        self,
        alloc: Global,
        passes: Vec<Pass<U>>,
    ) -> Result<Final<U>, (Rooms<U>, Vec<Pass<U>>)>
        requires { AreAll self.site self.callers passes.items }
        ensures usage { IfOk result (λ f. f.usage ≡ self.usage) }
        ensures left { IfOk result (λ f. IsLeft U.meaning self.usage self.callers (map last_of passes.items) f.words.items f.slots.items) }
        ensures back { IfErr result (λ b. (b.0 ≡ self) × (b.1 ≡ passes)) }
    {
        let (words, slots) = match self.space(alloc) {
            Ok(space) => space,
            Err(_) => return Err((self, passes)),
        };
        let seat = self.gather(passes);
        Ok(self.open_up(seat, words, slots))
    }

    // Memory for the user words and the slots.
    fn space(&self, alloc: Global) -> Result<(Vec<u64>, Vec<Option<U::Slot>>), AllocError>
        ensures words { IfOk result (λ s. (s.0.items ≡ []) × (U.meaning.words self.now.usage ≤ vec_capacity s.0)) }
        ensures slots { IfOk result (λ s. (s.1.items ≡ []) × (U.meaning.slots self.now.usage ≤ vec_capacity s.1)) }
    {
        let words = Vec::with_capacity(alloc, self.plan.usage.words())?;
        let slots = Vec::with_capacity(alloc, self.plan.usage.slots())?;
        Ok((words, slots))
    }

    // A new seat, which has taken in no pass.
    fn keeper(&self) -> Seat<Option<U::Slot>, Shown<U::View>>
        ensures own { result.table_id ≡ self.now.site }
        ensures keeper { (result.me.0.role ≡ Keeper) × (result.me.0.ended ≡ []) }
    {
        let table = &self.table;
        table.shared.load_new_seat::<Keeps<U>>(0).1
    }

    // The seat takes in a pass.
    fn take_in(&self, seat: &mut Seat<Option<U::Slot>, Shown<U::View>>, pass: Pass<U>)
        requires own { (seat.old.table_id ≡ self.now.site) × (pass.site ≡ self.now.site) }
        requires keeper { seat.old.me.0.role ≡ Keeper }
        ensures own { seat.new.table_id ≡ seat.old.table_id }
        ensures keeper { seat.new.me.0.role ≡ Keeper }
        ensures ended { seat.new.me.0.ended ≡ last_of pass ∷ seat.old.me.0.ended }
    {
        let table = &self.table;
        let Pass {
            seat: other,
            who: _,
            draws: _,
            limit: _,
        } = pass;
        table.shared.join_seat::<TakesIn<U>>(seat, other);
    }

    // All passes in one seat.
    fn gather(&self, passes: Vec<Pass<U>>) -> Seat<Option<U::Slot>, Shown<U::View>>
        requires { (i : ℕ) (p : Caller U.View) → IsAt passes.items i p → p.site ≡ self.now.site }
        ensures own { result.table_id ≡ self.now.site }
        ensures keeper { result.me.0.role ≡ Keeper }
        ensures ended { result.me.0.ended ≡ map last_of passes.items }
    {
        let mut passes = passes;
        let mut seat = self.keeper();
        while let Some(pass) = passes.pop() {
            self.take_in(&mut seat, pass);
        }
        seat
    }

    // Opens up the table whose passes are all in the seat, into memory that was taken before.
    fn open_up(
        self,
        seat: Seat<Option<U::Slot>, Shown<U::View>>,
        words: Vec<u64>,
        slots: Vec<Option<U::Slot>>,
    ) -> Final<U>
        requires own { seat.table_id ≡ self.site }
        requires keeper { seat.me.0.role ≡ Keeper }
        requires all { (length seat.me.0.ended ≡ self.callers) × AreApart seat.me.0.ended }
        requires words { (words.items ≡ []) × (U.meaning.words self.usage ≤ vec_capacity words) }
        requires slots { (slots.items ≡ []) × (U.meaning.slots self.usage ≤ vec_capacity slots) }
        ensures usage { result.usage ≡ self.usage }
        ensures left { IsLeft U.meaning self.usage self.callers seat.me.0.ended result.words.items result.slots.items }
    {
        let Rooms {
            table,
            plan,
            patience: _,
        } = self;
        let Plan { usage, callers: _ } = plan;
        let count = table.word_count();
        let mut closed = table.close_with(seat);
        let words = words_from(&closed, 1 + 3 * U::ROOMS, count, words);
        let slots = take_slots(&mut closed, slots);
        closed.free();
        Final {
            usage,
            words,
            slots,
        }
    }
}
