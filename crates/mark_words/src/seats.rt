//! The token of one that claims bits.
use crate::views::Known;
use atomic_table::Seat;
use std::marker::Model;

/// The right of one thread to claim bits, which shows those that it won and those that it found
/// set. It may be dropped; its claims can then not be closed.
#[derive(Drop)]
pub struct ClaimSeat {
    pub(crate) seat: Seat<(), Known>,
}

impl Model for ClaimSeat {
    ghost use Rattle.mark_words.specs.Shows.{Claimant};

    ghost Value = { Claimant };

    ghost use Rattle.mark_words.specs.SeatModel.{claimant_of, IsSeated};

    ghost view = { claimant_of };

    ghost invariant = { IsSeated };
}
