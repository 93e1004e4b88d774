//! Putting an item in.
ghost use Rattle.std.specs.Prelude.{◌≡◌, ◌<◌, true};
ghost use Rattle.drop_box.specs.Visits.{SameCaller, PutAnswers, CameOut, ComesBack, Fills};

use crate::boxes::DropBox;
use crate::uses::{BoxUse, PUT};
use crate::visits::SLOT;
use room_gate::{Entered, Inside, Pass};
use std::sync::Wait;

/// What became of an item.
#[derive(Drop, PartialEq)]
pub enum Put<T> {
    /// The box was empty, and holds it.
    Stored,
    /// The box was full, or another caller was there before in this turn: here it is.
    Refused(T),
    /// The pass has made its last visit, and nothing is changed: here it is.
    Spent(T),
}

impl<T: Drop> DropBox<T> {
    /// Puts the item into the box, if it is empty and no other caller came first in the turn. It
    /// waits for its turn, and takes no memory.
    ///
    /// The contract says that an item which was not stored is handed back, and that the pass is the
    /// same caller's; that a stored one is in the slot is seen in the code.
    pub fn put<R: Wait>(&self, rt: &R, pass: Pass<BoxUse<T>>, item: T) -> (Pass<BoxUse<T>>, Put<T>)
        requires { pass.site ≡ self.now.site }
        ensures same { SameCaller pass result.0 }
        ensures answer { PutAnswers result.1 item pass result.0 }
    {
        match self.rooms.enter(rt, pass, PUT) {
            Entered::Spent(pass) => (pass, Put::Spent(item)),
            Entered::Inside(inside) => self.put_inside(inside, item),
        }
    }

    fn put_inside(&self, inside: Inside<BoxUse<T>>, item: T) -> (Pass<BoxUse<T>>, Put<T>)
        requires own { inside.caller.site ≡ self.now.site }
        requires new { inside.caller.user.last < inside.opening.turn }
        ensures out { CameOut inside.caller result.0 }
        ensures item { ComesBack result.1 item }
    {
        let mut inside = inside;
        if !self.go_through(&mut inside) {
            return (self.go(inside), Put::Refused(item));
        }
        let answer = self.fill(&mut inside, item);
        self.bring_home(&mut inside);
        (self.go(inside), answer)
    }

    // Puts the item into the slot that the caller keeps, if it is empty.
    fn fill(&self, inside: &mut Inside<BoxUse<T>>, item: T) -> Put<T>
        requires own { inside.old.caller.site ≡ self.now.site }
        requires keeps { inside.old.caller.user.keeps ≡ true }
        ensures { Fills inside.old item result inside.new }
    {
        match self.rooms.swap_slot(inside, SLOT, None) {
            None => {
                self.rooms.swap_slot(inside, SLOT, Some(item));
                Put::Stored
            }
            Some(there) => {
                self.rooms.swap_slot(inside, SLOT, Some(there));
                Put::Refused(item)
            }
        }
    }
}
