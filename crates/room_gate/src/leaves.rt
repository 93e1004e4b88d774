//! Leaving a room.
ghost use Rattle.std.specs.Prelude.{◌≡◌, ◌≢◌, ◌+◌};
ghost use Rattle.room_gate.specs.Answers.{MatchLeft};
ghost use Rattle.room_gate.specs.Leaving.{HasKeyOf};

use crate::inside::Inside;
use crate::keys::Key;
use crate::passes::Pass;
use crate::rooms::Rooms;
use room_rule::RoomUse;

/// What a departure gives.
pub enum Left<U: RoomUse> {
    /// Others of this opening are still to leave.
    Out(Pass<U>),
    /// All that the opening let in have left, and the caller has the key.
    Last(Key<U>),
}

impl<U: RoomUse> Rooms<U> {
    /// Leaves the room. It makes one step, waits for nobody and takes no memory.
    pub fn leave(&self, inside: Inside<U>) -> Left<U>
        requires own { inside.caller.site ≡ self.now.site }
        requires may { U.meaning.may_leave self.now.usage inside.caller.user }
        ensures same { MatchLeft result (λ p. p ≡ record inside.caller { done = p.done }) (HasKeyOf inside) }
        ensures last { MatchLeft result (λ p. p.done + 1 ≢ inside.opening.to) (λ k. k.caller.done + 1 ≡ inside.opening.to) }
    {
        let Inside {
            mut seat,
            who,
            draws,
            limit,
            room,
            ticket,
            first,
            turn,
            to,
        } = inside;
        let before = self.depart(&mut seat, room, ticket, first, turn, to);
        if before + 1 == to {
            return Left::Last(Key {
                seat,
                who,
                draws,
                limit,
                room,
                turn,
            });
        }
        Left::Out(Pass {
            seat,
            who,
            draws,
            limit,
        })
    }
}
