//! The close: all seats go into one, and the table is opened up.
ghost use Rattle.std.specs.Prelude.{◌≡◌, ℕ, ◌+◌, ◌/◌, ◌<◌, ◌≤◌, [], ◌++◌, vec_capacity, IfOk, IfErr};
ghost use Rattle.std.specs.Slots.{slots_items, slots_len, IsFull};
ghost use Rattle.mark_words.specs.Rule.{IsAt};
ghost use Rattle.mark_words.specs.Shows.{Claimant};
ghost use Rattle.mark_words.specs.Closing.{AreAll, IsTold};
ghost use Rattle.mark_words.specs.Ending.{Reads, HasAll, Ends};

use crate::plays::{Enters, TakesIn};
use crate::seats::ClaimSeat;
use crate::set_ups::Claims;
use crate::views::Known;
use atomic_table::{Closed, Seat};
use std::alloc::Global;

// The first `bits` bits of a closed table, in memory that was taken before.
fn read_bits(closed: &Closed<(), Global>, bits: usize, room: Vec<bool>) -> Vec<bool>
    requires full { IsFull closed.now.words }
    requires wide { bits / 64 < slots_len closed.now.words }
    requires room { (room.items ≡ []) × (bits ≤ vec_capacity room) }
    ensures { Reads (slots_items closed.now.words) bits result.items }
{
    let mut set = room;
    for bit in 0..bits {
        let word = closed.word(bit / 64);
        let Ok(()) = set.push((word >> (bit % 64)) & 1 == 1) else {
            unreachable!()
        };
    }
    set
}

impl Claims {
    /// Takes the claims apart, with all their seats, and answers for each bit whether it is set. It
    /// takes the memory of the answer first, and waits for nobody.
    ///
    /// # Errors
    ///
    /// The claims and the seats, for want of memory.
    pub fn close(
        self,
        alloc: Global,
        seats: Vec<ClaimSeat>,
    ) -> Result<Vec<bool>, (Claims, Vec<ClaimSeat>)>
        requires { AreAll self.site self.seats seats.items }
        ensures told { IfOk result (λ v. IsTold self.bits seats.items v.items) }
        ensures back { IfErr result (λ b. (b.0 ≡ self) × (b.1 ≡ seats)) }
    {
        let room = match Vec::with_capacity(alloc, self.plan.bits as usize) {
            Ok(room) => room,
            Err(_) => return Err((self, seats)),
        };
        let seat = self.gather(seats);
        Ok(self.open_up(seat, room))
    }

    // A new seat, which has taken in no other.
    fn newest(&self) -> Seat<(), Known>
        ensures own { result.table_id ≡ self.now.site }
        ensures blank { (result.me.0.parts ≡ 0) × (result.me.0.won ≡ []) × (result.me.0.found ≡ []) }
    {
        let table = &self.table;
        table.shared.load_new_seat::<Enters>(0).1
    }

    // The seat takes in another.
    fn take_in(&self, seat: &mut Seat<(), Known>, other: ClaimSeat)
        requires { (seat.old.table_id ≡ self.now.site) × (other.site ≡ self.now.site) }
        ensures own { seat.new.table_id ≡ seat.old.table_id }
        ensures parts { seat.new.me.0.parts ≡ seat.old.me.0.parts + 1 }
        ensures won { seat.new.me.0.won ≡ other.won ++ seat.old.me.0.won }
        ensures found { seat.new.me.0.found ≡ other.found ++ seat.old.me.0.found }
    {
        let table = &self.table;
        let ClaimSeat { seat: other } = other;
        table.shared.join_seat::<TakesIn>(seat, other);
    }

    // All seats in one.
    fn gather(&self, seats: Vec<ClaimSeat>) -> Seat<(), Known>
        requires { (i : ℕ) (c : Claimant) → IsAt seats.items i c → c.site ≡ self.now.site }
        ensures own { result.table_id ≡ self.now.site }
        ensures all { HasAll seats.items result.me.0 }
    {
        let mut seats = seats;
        let mut seat = self.newest();
        while let Some(other) = seats.pop() {
            self.take_in(&mut seat, other);
        }
        seat
    }

    // Opens up the table whose seats are all in one, into memory that was taken before.
    fn open_up(self, seat: Seat<(), Known>, room: Vec<bool>) -> Vec<bool>
        requires own { seat.table_id ≡ self.site }
        requires all { seat.me.0.parts ≡ self.seats }
        requires room { (room.items ≡ []) × (self.bits ≤ vec_capacity room) }
        ensures { Ends self.bits seat.me.0 result.items }
    {
        let Claims { table, plan } = self;
        let closed = table.close_with(seat);
        let set = read_bits(&closed, plan.bits as usize, room);
        closed.free();
        set
    }
}
