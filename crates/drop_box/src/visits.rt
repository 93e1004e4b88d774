//! What a visit is made of: going through the turnstile, the slot, and leaving.
ghost use Rattle.std.specs.Prelude.{◌≡◌, ◌<◌, false, true};
ghost use Rattle.drop_box.specs.Visits.{StillInside, CameOut};

use crate::boxes::DropBox;
use crate::exits::Resets;
use crate::plays::{BringsHome, GoesThrough};
use crate::uses::{BoxUse, TURNSTILE};
use room_gate::{Inside, Left, Pass};

/// The number of the slot.
pub(crate) const SLOT: usize = 0;

impl<T: Drop> DropBox<T> {
    // Goes through the turnstile. The first caller of the turn keeps the slot then.
    pub(crate) fn go_through(&self, inside: &mut Inside<BoxUse<T>>) -> bool
        requires own { inside.old.caller.site ≡ self.now.site }
        requires new { inside.old.caller.user.last < inside.old.opening.turn }
        ensures same { StillInside inside.old inside.new }
        ensures first { inside.new.caller.user.keeps ≡ result }
    {
        self.rooms
            .add::<GoesThrough>(inside, TURNSTILE, 1, &GoesThrough)
            == 0
    }

    // Brings the slot home.
    pub(crate) fn bring_home(&self, inside: &mut Inside<BoxUse<T>>)
        requires own { inside.old.caller.site ≡ self.now.site }
        requires keeps { inside.old.caller.user.keeps ≡ true }
        ensures same { StillInside inside.old inside.new }
        ensures home { inside.new.caller.user.keeps ≡ false }
    {
        self.rooms
            .load::<BringsHome>(inside, TURNSTILE, &BringsHome);
    }

    // Leaves; the last one runs the exit code.
    pub(crate) fn go(&self, inside: Inside<BoxUse<T>>) -> Pass<BoxUse<T>>
        requires own { inside.caller.site ≡ self.now.site }
        requires free { inside.caller.user.keeps ≡ false }
        ensures { CameOut inside.caller result }
    {
        match self.rooms.leave(inside) {
            Left::Out(pass) => pass,
            Left::Last(key) => self.rooms.finish(key, &mut Resets),
        }
    }
}
