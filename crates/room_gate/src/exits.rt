//! The exit code of a turn, and passing on.
ghost use Rattle.std.specs.Prelude.{◌≡◌, ◌+◌, ◌%◌, ◌^◌, ◌<◌, Option, None, IfSome};
ghost use Rattle.room_core.specs.declared.phases.Phase.TheVariants as phases;
ghost use Rattle.room_rule.specs.declared.views.Role.TheVariants as roles;
ghost use Rattle.room_rule.specs.Use.{RestsOn};
ghost use Rattle.room_gate.specs.Leaving.{KeepsKey};
ghost use Rattle.room_gate.specs.LeavingRows.{scanning};
ghost use Rattle.room_gate.specs.Rows.{Goes};

use crate::keys::Key;
use crate::passes::Pass;
use crate::rooms::Rooms;
use atomic_table::Seat;
use room_rule::{Bare, RoomUse, Shown};

/// What is done once in each turn, by the caller that left last, while nobody is inside.
pub trait ExitCode<U: RoomUse> {
    /// Of the caller's user view before and after.
    ghost ran: { U.View → U.View → Type 0 };

    /// Runs the exit code: it may step on the user words through the key, and leaves them so that
    /// they need no exit code any more. No clause says that it returns: while it does not, and for
    /// ever where it aborts, its caller keeps the key, and no other room opens.
    fn run(&mut self, rooms: &Rooms<U>, key: &mut Key<U>)
        requires own { key.old.caller.site ≡ rooms.now.site }
        requires may { U.meaning.may_leave rooms.now.usage key.old.caller.user }
        ensures same { KeepsKey key.old key.new }
        ensures rests { RestsOn U.meaning rooms.now.usage key.new.words key.new.caller.user }
        ensures ran { ran key.old.caller.user key.new.caller.user };
}

/// The exit code of rooms alone, which does nothing.
#[derive(Drop)]
pub struct NoExit;

impl ExitCode<Bare> for NoExit {
    ghost ran = { λ before after. after ≡ before };

    fn run(&mut self, _rooms: &Rooms<Bare>, _key: &mut Key<Bare>) {}
}

impl<U: RoomUse> Rooms<U> {
    // The first room in the cyclic order, the own room last, for which more tickets were drawn than
    // let in, if there is one. `drawn` is how many were drawn for `next`.
    fn choose(
        &self,
        seat: &mut Seat<Option<U::Slot>, Shown<U::View>>,
        room: usize,
        turn: u64,
        next: usize,
        drawn: u64,
    ) -> Option<usize>
        requires own { seat.old.table_id ≡ self.now.site }
        requires room { (room < U.ROOMS) × (next < U.ROOMS) }
        requires role { seat.old.me.0.role ≡ roles.Pass }
        requires phase { seat.old.me.0.phase ≡ phases.Peering room turn next drawn }
        ensures goes { Goes seat.old seat.new (scanning (phases.Passing turn result) seat.new.me.0.grant seat.new.me.0.found seat.old.me.0) }
        ensures exists { IfSome result (λ k. k < U.ROOMS) }
    {
        let rooms = U::ROOMS;
        let mut scanned = next;
        let mut drawn = drawn;
        loop {
            let granted = self.peer(seat, room, turn, scanned, drawn);
            if granted < drawn {
                return Some(scanned);
            }
            if scanned == room {
                return None;
            }
            scanned = (scanned + 1) % rooms;
            drawn = self.scan(seat, room, turn, scanned);
        }
    }

    /// Runs the exit code once, then passes the turn on: of the rooms after this one in their
    /// order, round to this one itself, it opens the first for which more tickets were drawn than
    /// let in, and where there is none it makes the active word idle. The pass has seen the openings
    /// that the key's caller had seen, and not the one that it makes here for others. Where the exit
    /// code returns, it makes at most 2 · ROOMS + 3 steps beside those of the exit code, waits for
    /// nobody and takes no memory.
    pub fn finish<E: ExitCode<U>>(&self, key: Key<U>, exit: &mut E) -> Pass<U>
        requires own { key.caller.site ≡ self.now.site }
        requires may { U.meaning.may_leave self.now.usage key.caller.user }
        ensures same { result ≡ record key.caller { user = result.user } }
        ensures ran { E.ran key.caller.user result.user }
    {
        let mut key = key;
        exit.run(self, &mut key);
        let Key {
            mut seat,
            who,
            draws,
            limit,
            room,
            turn,
        } = key;
        let rooms = U::ROOMS;
        let next = (room + 1) % rooms;
        let drawn = self.end_exit(&mut seat, room, turn, next);
        match self.choose(&mut seat, room, turn, next, drawn) {
            Some(chosen) => {
                self.pass_on(&mut seat, turn, chosen);
                let to = self.count(&mut seat, chosen, 0, None, turn + 1);
                self.open_out(&mut seat, chosen, turn + 1, to);
            }
            None => self.pass_idle(&mut seat, turn),
        }
        Pass {
            seat,
            who,
            draws,
            limit,
        }
    }
}
