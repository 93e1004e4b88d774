//! The box, and making one.
ghost use Rattle.std.specs.Prelude.{◌≡◌, ◌≤◌, ◌^◌, IfOk};
ghost use Rattle.room_gate.specs.Making.{ArePasses};
ghost use Rattle.drop_box.specs.Box.{new_visit};

use crate::uses::BoxUse;
use room_gate::{Pass, Rooms};
use std::alloc::{AllocError, Global};
use std::marker::Model;

/// A box for one item, with a bell.
#[derive(Drop)]
pub struct DropBox<T: Drop> {
    pub(crate) rooms: Rooms<BoxUse<T>>,
}

impl<T: Drop> Model for DropBox<T> {
    ghost use Rattle.room_gate.specs.Shows.{Site};
    ghost use Rattle.drop_box.specs.declared.uses.BoxUse.{BoxUse};

    ghost Value = { Site (BoxUse T) };

    ghost use Rattle.drop_box.specs.BoxModel.{rooms_of};

    ghost view = { rooms_of };
}

impl<T: Drop> DropBox<T> {
    /// Makes an empty box and a pass for each of `callers` callers, up to 64, each with `draws`
    /// visits, up to 2^48.
    ///
    /// # Errors
    ///
    /// Want of memory alone.
    pub fn set_up(
        alloc: Global,
        callers: u32,
        draws: u64,
    ) -> Result<(DropBox<T>, Vec<Pass<BoxUse<T>>>), AllocError>
        requires callers { callers ≤ 64 }
        requires draws { draws ≤ 2 ^ 48 }
        ensures callers { IfOk result (λ r. r.0.callers ≡ callers) }
        ensures passes { IfOk result (λ r. ArePasses r.0.site draws (λ who. new_visit) callers r.1.items) }
    {
        let (rooms, passes) = Rooms::set_up(alloc, BoxUse::new(), callers, draws)?;
        Ok((DropBox { rooms }, passes))
    }
}
