//! Drawing a ticket.
ghost use Rattle.std.specs.Prelude.{◌≡◌, ◌<◌};
ghost use Rattle.room_gate.specs.Answers.{MatchDrawn};
ghost use Rattle.room_gate.specs.Entering.{IsDrawn};

use crate::passes::Pass;
use crate::plays::Draws;
use crate::rooms::Rooms;
use crate::waiting::Waiting;
use room_rule::{RoomUse, wait_place};

/// What a draw gives.
pub enum Drawn<U: RoomUse> {
    /// The caller has a ticket.
    Waiting(Waiting<U>),
    /// The pass has made its last draw, and nothing is changed.
    Spent(Pass<U>),
}

impl<U: RoomUse> Rooms<U> {
    /// Draws the next ticket of a room. It makes one step, waits for nobody and takes no memory.
    pub fn draw(&self, pass: Pass<U>, room: usize) -> Drawn<U>
        requires own { pass.site ≡ self.now.site }
        requires room { room < U.ROOMS }
        requires may { U.meaning.may_enter self.now.usage pass.user }
        ensures drawn { MatchDrawn result (IsDrawn pass room) (λ spent. spent ≡ pass) }
        ensures spent { MatchDrawn result (λ _. pass.draws < pass.limit) (λ _. pass.draws ≡ pass.limit) }
    {
        if pass.draws >= pass.limit {
            return Drawn::Spent(pass);
        }
        let Pass {
            mut seat,
            who,
            draws,
            limit,
        } = pass;
        let old = self
            .table
            .shared
            .fetch_add::<Draws>(&mut seat, wait_place(room), 1);
        Drawn::Waiting(Waiting {
            seat,
            who,
            draws: draws + 1,
            limit,
            room,
            ticket: old + 1,
            first: None,
            grant: 0,
            active: 0,
            found: None,
        })
    }
}
