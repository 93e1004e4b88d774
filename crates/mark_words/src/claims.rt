//! A claim of a bit.
ghost use Rattle.std.specs.Prelude.{◌≡◌, ◌<◌, ◌%◌, true, false, if◌then◌else◌};
ghost use Rattle.std.specs.Int.{bit_at};
ghost use Rattle.mark_words.specs.Bits.{times};
ghost use Rattle.mark_words.specs.Shows.{claimed};

use crate::plays::{Claiming, Looking, Naming};
use crate::seats::ClaimSeat;
use crate::set_ups::Claims;

impl Claims {
    /// Sets the bit, and answers whether it was clear: true exactly where this step set it. The
    /// seat then shows the bit among those that it won, and had shown it nowhere before; else it shows
    /// it among those that it found set. It shows the word that its step found, which tells the answer.
    /// It takes no memory and waits for nobody.
    pub fn claim(&self, seat: &mut ClaimSeat, bit: u32) -> bool
        requires bit { bit < self.now.bits }
        requires own { seat.old.site ≡ self.now.site }
        ensures seat { seat.new ≡ claimed bit seat.new.old result seat.old }
        ensures old { bit_at seat.new.old (bit % 64) ≡ (if result then 0 else 1) }
        ensures fresh { result ≡ true → (times bit seat.old.won ≡ 0) × (times bit seat.old.found ≡ 0) }
    {
        if !self.is_clear(seat, bit) {
            return false;
        }
        let place = bit % 64;
        let table = &self.table.shared;
        let found = table.fetch_or::<Claiming>(&mut seat.seat, (bit / 64) as usize, 1u64 << place);
        (found >> place) & 1 == 0
    }

    // Looks whether the bit is clear, and leaves it as it is. One that is set comes to those that the
    // seat found set. A load of a word tells the seat's view no bit of it, so another load goes before,
    // of a word whose number tells the place of the bit: one of the last 64, which nobody writes.
    #[inline]
    fn is_clear(&self, seat: &mut ClaimSeat, bit: u32) -> bool
        requires bit { bit < self.now.bits }
        requires own { seat.old.site ≡ self.now.site }
        ensures clear { result ≡ true → seat.new ≡ seat.old }
        ensures set { result ≡ false → seat.new ≡ claimed bit seat.new.old false seat.old }
        ensures old { result ≡ false → bit_at seat.new.old (bit % 64) ≡ 1 }
    {
        let place = bit % 64;
        let table = &self.table.shared;
        let named = self.plan.bits / 64 / 64 * 64 + 64 + place;
        table.load::<Naming>(&mut seat.seat, named as usize);
        let seen = table.load::<Looking>(&mut seat.seat, (bit / 64) as usize);
        (seen >> place) & 1 == 0
    }
}
