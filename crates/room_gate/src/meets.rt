//! Two insiders that meet.
ghost use Rattle.std.specs.Prelude.{◌≡◌, ℕ, ◌+◌};
ghost use Rattle.room_gate.specs.Meeting.{IsIn, met};

use crate::inside::Inside;
use crate::plays::{Learns, Notes};
use crate::rooms::Rooms;
use atomic_table::Seat;
use room_rule::{RoomUse, Shown};

impl<U: RoomUse> Rooms<U> {
    /// Two insiders compare the openings that they have seen, and find that these are one list:
    /// both are of one room and one turn. Each looks at the active word once. It waits for nobody
    /// and takes no memory.
    pub fn meet(&self, one: &mut Inside<U>, two: &mut Inside<U>)
        requires own { (one.old.caller.site ≡ self.now.site) × (two.old.caller.site ≡ self.now.site) }
        ensures opening { one.new.opening ≡ two.new.opening }
        ensures seen { one.new.caller.seen ≡ two.new.caller.seen }
        ensures one { one.new ≡ record one.old { caller = record one.old.caller { loads = one.old.caller.loads + 1 } } }
        ensures two { two.new ≡ record two.old { caller = record two.old.caller { loads = two.old.caller.loads + 1 } } }
    {
        self.compare(&mut one.seat, &mut two.seat);
    }

    // Each of two insiders learns a note of the other, and looks at the active word.
    fn compare(
        &self,
        one: &mut Seat<Option<U::Slot>, Shown<U::View>>,
        two: &mut Seat<Option<U::Slot>, Shown<U::View>>,
    )
        requires own { (one.old.table_id ≡ self.now.site) × (two.old.table_id ≡ self.now.site) }
        requires inside { ((turn : ℕ) × IsIn one.old.me.0 turn) × ((turn : ℕ) × IsIn two.old.me.0 turn) }
        ensures one { (one.new.table_id ≡ one.old.table_id) × met one.old.me one.new.me }
        ensures two { (two.new.table_id ≡ two.old.table_id) × met two.old.me two.new.me }
        ensures seen { one.old.me.0.seen ≡ two.old.me.0.seen }
    {
        let table = &self.table.shared;
        let of_one = table.split_seat::<Notes>(one);
        let of_two = table.split_seat::<Notes>(two);
        table.join_seat::<Learns<U>>(one, of_two);
        table.join_seat::<Learns<U>>(two, of_one);
        self.look_again(one);
        self.look_again(two);
    }
}
