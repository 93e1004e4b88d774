//! Notes: the openings that one caller has seen, for another.
ghost use Rattle.std.specs.Prelude.{◌≡◌};
ghost use Rattle.room_gate.specs.Entering.{taught};

use crate::inside::Inside;
use crate::plays::{Learns, Notes};
use crate::rooms::Rooms;
use crate::waiting::Waiting;
use atomic_table::Seat;
use room_rule::{RoomUse, Shown};
use std::marker::Model;

/// The openings that its maker had seen. It may be dropped.
#[derive(Drop)]
pub struct Note<U: RoomUse> {
    pub(crate) seat: Seat<Option<U::Slot>, Shown<U::View>>,
}

impl<U: RoomUse> Model for Note<U> {
    ghost use Rattle.room_gate.specs.Shows.{Notice};

    ghost Value = { Notice };

    ghost use Rattle.room_gate.specs.NoteModel.{notice_of, IsNote};

    ghost view = { notice_of };

    ghost invariant = { IsNote };
}

impl<U: RoomUse> Rooms<U> {
    /// Makes a note of the openings that the insider has seen. It waits for nobody and takes no
    /// memory.
    pub fn note(&self, inside: &mut Inside<U>) -> Note<U>
        requires own { inside.old.caller.site ≡ self.now.site }
        ensures note { result ≡ record { site = self.now.site; openings = inside.old.caller.seen } }
        ensures same { inside.new ≡ inside.old }
    {
        let seat = self.table.shared.split_seat::<Notes>(&mut inside.seat);
        Note { seat }
    }

    /// Learns a note. A caller that knows of an opening which covers its ticket enters at its next
    /// poll. It waits for nobody and takes no memory.
    pub fn learn(&self, waiting: &mut Waiting<U>, note: Note<U>)
        requires own { waiting.old.caller.site ≡ self.now.site }
        requires note { note.site ≡ self.now.site }
        ensures { waiting.new ≡ taught waiting.old note.openings }
    {
        let Note { seat } = note;
        self.table
            .shared
            .join_seat::<Learns<U>>(&mut waiting.seat, seat);
    }
}
