//! Taking an item out.
ghost use Rattle.std.specs.Prelude.{◌≡◌, ◌<◌};
ghost use Rattle.drop_box.specs.Visits.{SameCaller, TakeAnswers, CameOut, IsNotSpent};

use crate::boxes::DropBox;
use crate::uses::{BoxUse, TAKE};
use crate::visits::SLOT;
use room_gate::{Entered, Inside, Pass};
use std::sync::Wait;

/// What was taken.
#[derive(Drop, PartialEq)]
pub enum Taken<T> {
    /// The item of the box, which is empty now.
    Item(T),
    /// The box was empty, or another caller was there before in this turn.
    Nothing,
    /// The pass has made its last visit, and nothing is changed.
    Spent,
}

impl<T: Drop> DropBox<T> {
    /// Takes the item out of the box, if there is one and no other caller came first in the turn.
    /// It waits for its turn, and takes no memory.
    ///
    /// The contract says that the pass is the same caller's, with one visit more unless it was
    /// spent; that the item is that of the slot is seen in the code.
    pub fn take<R: Wait>(&self, rt: &R, pass: Pass<BoxUse<T>>) -> (Pass<BoxUse<T>>, Taken<T>)
        requires { pass.site ≡ self.now.site }
        ensures same { SameCaller pass result.0 }
        ensures answer { TakeAnswers result.1 pass result.0 }
    {
        match self.rooms.enter(rt, pass, TAKE) {
            Entered::Spent(pass) => (pass, Taken::Spent),
            Entered::Inside(inside) => self.take_inside(inside),
        }
    }

    fn take_inside(&self, inside: Inside<BoxUse<T>>) -> (Pass<BoxUse<T>>, Taken<T>)
        requires own { inside.caller.site ≡ self.now.site }
        requires new { inside.caller.user.last < inside.opening.turn }
        ensures out { CameOut inside.caller result.0 }
        ensures item { IsNotSpent result.1 }
    {
        let mut inside = inside;
        if !self.go_through(&mut inside) {
            return (self.go(inside), Taken::Nothing);
        }
        let found = self.rooms.swap_slot(&mut inside, SLOT, None);
        self.bring_home(&mut inside);
        let pass = self.go(inside);
        match found {
            Some(item) => (pass, Taken::Item(item)),
            None => (pass, Taken::Nothing),
        }
    }
}
