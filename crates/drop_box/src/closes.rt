//! The close of a box.
ghost use Rattle.std.specs.Prelude.{◌≡◌, length, IfOk, IfErr};
ghost use Rattle.room_gate.specs.Closing.{AreAll};
ghost use Rattle.drop_box.specs.Closing.{IsLeftOver};

use crate::boxes::DropBox;
use crate::uses::BoxUse;
use room_gate::{Final, Pass};
use std::alloc::Global;

impl<T: Drop> DropBox<T> {
    /// Takes the box apart, with the passes of all its callers: the words are 0 and how often the
    /// bell was rung, and there is one slot, which holds an item or none. It takes the memory of the
    /// answer first.
    ///
    /// # Errors
    ///
    /// The box and the passes, for want of memory.
    pub fn close(
        self,
        alloc: Global,
        passes: Vec<Pass<BoxUse<T>>>,
    ) -> Result<Final<BoxUse<T>>, (DropBox<T>, Vec<Pass<BoxUse<T>>>)>
        requires { AreAll self.site self.callers passes.items }
        ensures words { IfOk result (λ f. IsLeftOver passes.items f.words.items) }
        ensures slot { IfOk result (λ f. length f.slots.items ≡ 1) }
        ensures back { IfErr result (λ b. (b.0 ≡ self) × (b.1 ≡ passes)) }
    {
        let DropBox { rooms } = self;
        match rooms.close(alloc, passes) {
            Ok(left) => Ok(left),
            Err((rooms, passes)) => Err((DropBox { rooms }, passes)),
        }
    }
}
