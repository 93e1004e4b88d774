//! The slots of a use, which hold owned values.
ghost use Rattle.std.specs.Prelude.{◌≡◌, Some};

use crate::inside::Inside;
use crate::rooms::Rooms;
use room_rule::RoomUse;

impl<U: RoomUse> Rooms<U> {
    /// Puts `new` into the slot that the insider keeps, and answers what the slot held. It is no step
    /// on a word: it waits for nobody and takes no memory.
    pub fn swap_slot(
        &self,
        inside: &mut Inside<U>,
        slot: usize,
        new: Option<U::Slot>,
    ) -> Option<U::Slot>
        requires own { inside.old.caller.site ≡ self.now.site }
        requires keeps { U.meaning.keeps inside.old.caller.user ≡ Some slot }
        ensures held { inside.old.held ≡ Some result }
        ensures holds { inside.new ≡ record inside.old { held = Some new } }
    {
        self.table.shared.exchange(&mut inside.seat, slot, new)
    }
}
