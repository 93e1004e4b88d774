//! An insider's look at the active word.
ghost use Rattle.std.specs.Prelude.{◌≡◌, ◌+◌};
ghost use Rattle.room_rule.specs.Looking.{looked_by};
ghost use Rattle.room_rule.specs.declared.views.Role.TheVariants as roles;

use crate::inside::Inside;
use crate::plays::Looks;
use crate::rooms::Rooms;
use atomic_table::Seat;
use room_rule::{ACTIVE_PLACE, RoomUse, Shown, code_of, turn_of};

impl<U: RoomUse> Rooms<U> {
    /// Looks at the active word: the answer is its turn and its room, which are the insider's. It
    /// makes one step, waits for nobody and takes no memory.
    pub fn look(&self, inside: &mut Inside<U>) -> (u64, usize)
        requires own { inside.old.caller.site ≡ self.now.site }
        ensures turn { result.0 ≡ inside.old.opening.turn }
        ensures room { result.1 ≡ inside.old.opening.room }
        ensures same { inside.new ≡ record inside.old { caller = record inside.old.caller { loads = inside.old.caller.loads + 1 } } }
    {
        let word = self.look_again(&mut inside.seat);
        (turn_of(word), code_of(word) as usize - 1)
    }

    /// Loads the active word, for a caller that need not take it for its way.
    pub(crate) fn look_again(&self, seat: &mut Seat<Option<U::Slot>, Shown<U::View>>) -> u64
        requires own { seat.old.table_id ≡ self.now.site }
        requires role { seat.old.me.0.role ≡ roles.Pass }
        ensures own { seat.new.table_id ≡ seat.old.table_id }
        ensures told { looked_by seat.old.me result seat.new.me }
    {
        self.table.shared.load::<Looks>(seat, ACTIVE_PLACE)
    }
}
