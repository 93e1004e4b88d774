//! Ringing the bell.
ghost use Rattle.std.specs.Prelude.{◌≡◌, ◌+◌, ◌^◌, ◌<◌, ◌≤◌};

use crate::boxes::DropBox;
use crate::plays::Rings;
use crate::uses::{BELL, BoxUse};
use room_gate::Pass;

impl<T: Drop> DropBox<T> {
    /// Rings the bell, and answers how often it had been rung, by all callers. A caller rings less
    /// than 2^32 times. It makes one step, waits for nobody and takes no memory.
    pub fn ring(&self, pass: &mut Pass<BoxUse<T>>) -> u64
        requires own { pass.old.site ≡ self.now.site }
        requires few { pass.old.user.rings < 2 ^ 32 }
        ensures own { pass.old.user.rings ≤ result }
        ensures same { pass.new ≡ record pass.old { user = record pass.old.user { rings = pass.old.user.rings + 1 } } }
    {
        self.rooms.touch_add::<Rings>(pass, BELL, 1, &Rings)
    }
}
