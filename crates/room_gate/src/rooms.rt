//! A set-up of rooms: its table, and all its passes.
ghost use Rattle.std.specs.Prelude.{◌≡◌, ℕ, ◌+◌, ◌*◌, ◌^◌, ◌<◌, ◌≤◌, List, ◌++◌, length, replicate, slice_index, IfOk};
ghost use Rattle.room_rule.specs.declared.views.Role.TheVariants.{Maker};
ghost use Rattle.room_gate.specs.Making.{ArePasses, IsLaidOut};

use crate::passes::Pass;
use crate::patience::Patience;
use crate::plays::Hires;
use atomic_table::{Seat, Table};
use room_rule::{Plan, RoomRule, RoomUse, Shown};
use std::alloc::{AllocError, Global};
use std::marker::Model;

/// The rooms of one set-up, which its callers share by reference.
#[derive(Drop)]
pub struct Rooms<U: RoomUse> {
    pub(crate) table: Table<Option<U::Slot>, Shown<U::View>, Plan<U>, RoomRule<U>, Global>,
    pub(crate) plan: Plan<U>,
    pub(crate) patience: Patience,
}

impl<U: RoomUse> Model for Rooms<U> {
    ghost use Rattle.room_gate.specs.Shows.{Site};

    ghost Value = { Site U };

    ghost use Rattle.room_gate.specs.RoomsModel.{site_of, IsSetUp};

    ghost view = { site_of };

    ghost invariant = { IsSetUp U.ROOMS U.meaning };
}

// The words at the start: zeros for the rooms, and then those of the use.
fn lay_out<U: RoomUse>(alloc: Global, usage: &U, callers: u32) -> Result<Vec<u64>, AllocError>
    requires { U.ROOMS ≤ 7 }
    ensures { IfOk result (λ v. IsLaidOut U.ROOMS U.meaning usage.now callers (U.meaning.words usage.now) v.items) }
{
    let mut words = Vec::new(alloc);
    for _ in 0..1 + 3 * U::ROOMS {
        words.push(0)?;
    }
    for word in 0..usage.words() {
        words.push(usage.start(word, callers))?;
    }
    Ok(words)
}

impl<U: RoomUse> Rooms<U> {
    /// Makes the rooms, whose slots hold None, and a pass for each of `callers` callers, up to 64,
    /// each with `draws` draws, up to 2^48. Where there are no callers there is no pass, and a pass
    /// with no draws is spent at once. It takes all the memory of the calls on them but `close`. The
    /// error is want of memory alone; the usage is dropped then. It returns where the usage's
    /// functions do.
    pub fn set_up(
        alloc: Global,
        usage: U,
        callers: u32,
        draws: u64,
    ) -> Result<(Rooms<U>, Vec<Pass<U>>), AllocError>
        requires rooms { U.ROOMS ≤ 7 }
        requires callers { callers ≤ 64 }
        requires draws { draws ≤ 2 ^ 48 }
        ensures rooms { IfOk result (λ r. (r.0.usage ≡ usage) × (r.0.callers ≡ callers)) }
        ensures passes { IfOk result (λ r. ArePasses r.0.site draws U.meaning.starts callers r.1.items) }
    {
        let words = lay_out(alloc, &usage, callers)?;
        let plan = Plan { usage, callers };
        let slots = plan.usage.slots();
        let (table, maker) = Table::vacant(alloc, words.as_slice(), slots, &plan)?;
        let rooms = Rooms {
            table,
            plan,
            patience: Patience::new(),
        };
        let passes = rooms.hire_all(alloc, maker, draws)?;
        Ok((rooms, passes))
    }

    /// What the rooms are used for.
    pub fn usage(&self) -> &U
        ensures { result.now ≡ self.now.usage }
    {
        &self.plan.usage
    }

    // A pass for each caller, by the seat that makes them.
    fn hire_all(
        &self,
        alloc: Global,
        maker: Seat<Option<U::Slot>, Shown<U::View>>,
        limit: u64,
    ) -> Result<Vec<Pass<U>>, AllocError>
        requires own { maker.table_id ≡ self.now.site }
        requires maker { (maker.me.0.role ≡ Maker) × (maker.me.0.who ≡ 0) }
        requires limit { limit ≤ 2 ^ 48 }
        ensures { IfOk result (λ v. ArePasses self.now.site limit U.meaning.starts self.now.callers v.items) }
    {
        let mut maker = maker;
        let mut passes = Vec::new(alloc);
        for who in 0..self.plan.callers {
            let seat = self.table.shared.split_seat::<Hires<U>>(&mut maker);
            passes.push(Pass {
                seat,
                who,
                draws: 0,
                limit,
            })?;
        }
        Ok(passes)
    }
}
