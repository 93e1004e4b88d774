//! Entering a room by waiting for it.
ghost use Rattle.std.specs.Prelude.{◌≡◌, ◌<◌};
ghost use Rattle.room_gate.specs.Answers.{MatchGoneIn, IfGoneIn};
ghost use Rattle.room_gate.specs.Entering.{IsLetIn};
ghost use Rattle.room_gate.specs.GoingIn.{GoesIn, IsThrough};

use crate::draws::Drawn;
use crate::inside::Inside;
use crate::passes::Pass;
use crate::polls::Polled;
use crate::rooms::Rooms;
use crate::waiting::Waiting;
use room_rule::RoomUse;
use std::sync::Wait;

/// What entering gives.
pub enum Entered<U: RoomUse> {
    /// The caller is inside.
    Inside(Inside<U>),
    /// The pass has made its last draw, and nothing is changed.
    Spent(Pass<U>),
}

impl<U: RoomUse> Rooms<U> {
    /// Draws a ticket of the room, and polls until it is inside. It waits for those that are let
    /// in before it to leave, and takes no memory.
    #[inline(always)]
    pub fn enter<R: Wait>(&self, rt: &R, pass: Pass<U>, room: usize) -> Entered<U>
        requires own { pass.site ≡ self.now.site }
        requires room { room < U.ROOMS }
        requires may { U.meaning.may_enter self.now.usage pass.user }
        ensures answer { MatchGoneIn result (GoesIn pass room) (λ spent. spent ≡ pass) }
        ensures spent { MatchGoneIn result (λ _. pass.draws < pass.limit) (λ _. pass.draws ≡ pass.limit) }
        ensures let_in { IfGoneIn result (IsLetIn U.ROOMS) }
        ensures in_a_new_turn { IfGoneIn result (λ i. U.meaning.last i.caller.user < i.opening.turn) }
    {
        match self.draw(pass, room) {
            Drawn::Waiting(waiting) => Entered::Inside(self.poll_on(rt, waiting)),
            Drawn::Spent(spent) => Entered::Spent(spent),
        }
    }

    // Polls until it is inside.
    #[inline(always)]
    fn poll_on<R: Wait>(&self, rt: &R, waiting: Waiting<U>) -> Inside<U>
        requires own { waiting.caller.site ≡ self.now.site }
        ensures same { IsThrough waiting result }
        ensures let_in { IsLetIn U.ROOMS result }
        ensures in_a_new_turn { U.meaning.last result.caller.user < result.opening.turn }
    {
        let mut pauses = self.patience.begin(self.plan.callers);
        let mut waiting = waiting;
        for _ in rt.forever() {
            match self.poll(waiting) {
                Polled::Entered(inside) => {
                    pauses.end();
                    return inside;
                }
                Polled::NotYet(still) => waiting = still,
            }
            pauses.pause(waiting.active);
        }
        unreachable!()
    }
}
