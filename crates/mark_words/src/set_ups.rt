//! A set-up of claims: its table, and all its seats.
ghost use Rattle.std.specs.Prelude.{◌≡◌, ◌^◌, ◌≤◌, [], IfOk};
ghost use Rattle.mark_words.specs.Making.{AreSeats};

use crate::plays::Hires;
use crate::rule::{ClaimRule, Plan};
use crate::seats::ClaimSeat;
use crate::views::Known;
use atomic_table::{Seat, Table};
use std::alloc::{AllocError, Global};
use std::marker::Model;

/// The bits of one set-up, which its threads share by reference. It may be dropped.
#[derive(Drop)]
pub struct Claims {
    pub(crate) table: Table<(), Known, Plan, ClaimRule, Global>,
    pub(crate) plan: Plan,
}

impl Model for Claims {
    ghost use Rattle.mark_words.specs.Shows.{Site};

    ghost Value = { Site };

    ghost use Rattle.mark_words.specs.ClaimsModel.{site_of, IsSetUp};

    ghost view = { site_of };

    ghost invariant = { IsSetUp };
}

impl Claims {
    /// Makes `bits` bits, at most 2^20, all clear, and `seats` seats, 1 to 17, that claimed
    /// nothing. It takes all the memory of the calls on them but `close`, and waits for nobody.
    ///
    /// # Errors
    ///
    /// Want of memory alone.
    pub fn set_up(
        alloc: Global,
        bits: u32,
        seats: u32,
    ) -> Result<(Claims, Vec<ClaimSeat>), AllocError>
        requires bits { bits ≤ 2 ^ 20 }
        requires seats { (1 ≤ seats) × (seats ≤ 17) }
        ensures claims { IfOk result (λ r. (r.0.bits ≡ bits) × (r.0.seats ≡ seats)) }
        ensures seats { IfOk result (λ r. AreSeats r.0.site seats r.1.items) }
    {
        let words = vec![in alloc; 0u64; bits as usize / 64 / 64 * 64 + 128]?;
        let plan = Plan { bits, seats };
        let (table, maker) = Table::of_words(alloc, words.as_slice(), &plan)?;
        let claims = Claims { table, plan };
        let made = claims.make_seats(alloc, maker)?;
        Ok((claims, made))
    }

    /// How many bits there are, at most 2^20.
    pub fn bits(&self) -> u32
        ensures value { result ≡ self.now.bits }
        ensures few { result ≤ 2 ^ 20 }
    {
        self.plan.bits
    }

    // All seats of the set-up, by the seat that makes them.
    fn make_seats(
        &self,
        alloc: Global,
        maker: Seat<(), Known>,
    ) -> Result<Vec<ClaimSeat>, AllocError>
        requires own { maker.table_id ≡ self.now.site }
        requires maker { (maker.me.0.number ≡ 0) × (maker.me.0.parts ≡ self.now.seats) × (maker.me.0.won ≡ []) }
        ensures { IfOk result (λ v. AreSeats self.now.site self.now.seats v.items) }
    {
        let mut maker = maker;
        let mut seats = Vec::new(alloc);
        for made in 0..self.plan.seats {
            let seat = self.table.shared.split_seat::<Hires>(&mut maker);
            seats.push(ClaimSeat { seat })?;
        }
        Ok(seats)
    }
}
