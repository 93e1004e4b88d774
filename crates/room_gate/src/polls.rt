//! Polling: one try to enter.
ghost use Rattle.std.specs.Prelude.{◌≡◌, ◌<◌, Some, []};
ghost use Rattle.room_core.specs.declared.phases.Phase.TheVariants as phases;
ghost use Rattle.room_core.specs.Active.{seen};
ghost use Rattle.room_rule.specs.declared.views.Role.TheVariants as roles;
ghost use Rattle.room_rule.specs.Openings.{IsCovered};
ghost use Rattle.room_gate.specs.Answers.{MatchPolled, IfEntered, IsEntered};
ghost use Rattle.room_gate.specs.Entering.{HasEntered, IsHeldOff, IsLetIn};
ghost use Rattle.room_gate.specs.Tries.{MatchTried, IsTriedIn};

use crate::inside::Inside;
use crate::rooms::Rooms;
use crate::waiting::Waiting;
use atomic_table::Seat;
use room_rule::{RoomUse, Shown, code_of, turn_of};

/// What a poll gives.
pub enum Polled<U: RoomUse> {
    /// The caller is inside.
    Entered(Inside<U>),
    /// The last ticket let in was below its own, and it could not open the room itself: the active
    /// word was not idle, or changed before its exchange.
    NotYet(Waiting<U>),
}

// The turn of the first look, where `word` is what this look finds.
fn first_look(first: Option<u64>, word: u64) -> u64
    ensures { seen first word ≡ Some result }
{
    match first {
        None => turn_of(word),
        Some(turn) => turn,
    }
}

// What one try comes to.
enum Tried {
    // The caller is inside: the turn of its first look, the turn of the opening, and the last ticket
    // that it let in.
    In(u64, u64, u64),
    // It still looks: the turn of its first look, the grant and the active word as it loaded them,
    // and what its exchange found, if it made one.
    Barred(u64, u64, u64, Option<u64>),
}

impl<U: RoomUse> Rooms<U> {
    /// Tries once to enter. It makes at most five steps, waits for nobody and takes no memory.
    pub fn poll(&self, waiting: Waiting<U>) -> Polled<U>
        requires own { waiting.caller.site ≡ self.now.site }
        ensures answer { MatchPolled result (HasEntered waiting) (IsHeldOff waiting) }
        ensures let_in { IfEntered result (IsLetIn U.ROOMS) }
        ensures in_a_new_turn { IfEntered result (λ i. U.meaning.last i.caller.user < i.opening.turn) }
        ensures as_told { IsCovered waiting.known waiting.room waiting.ticket → IsEntered result }
    {
        let Waiting {
            mut seat,
            who,
            draws,
            limit,
            room,
            ticket,
            first,
            grant: _,
            active: _,
            found: _,
        } = waiting;
        match self.try_once(&mut seat, room, ticket, first) {
            Tried::In(first, turn, to) => Polled::Entered(Inside {
                seat,
                who,
                draws,
                limit,
                room,
                ticket,
                first,
                turn,
                to,
            }),
            Tried::Barred(first, grant, active, found) => Polled::NotYet(Waiting {
                seat,
                who,
                draws,
                limit,
                room,
                ticket,
                first: Some(first),
                grant,
                active,
                found,
            }),
        }
    }

    // One try of a caller that looks: it enters an open room, or opens its room where none is open.
    fn try_once(
        &self,
        seat: &mut Seat<Option<U::Slot>, Shown<U::View>>,
        room: usize,
        ticket: u64,
        first: Option<u64>,
    ) -> Tried
        requires own { seat.old.table_id ≡ self.now.site }
        requires room { room < U.ROOMS }
        requires ticket { 0 < ticket }
        requires role { seat.old.me.0.role ≡ roles.Pass }
        requires phase { seat.old.me.0.phase ≡ phases.Looking room ticket first }
        requires first { seat.old.me.0.first ≡ first }
        requires no_slot { seat.old.me.1 ≡ [] }
        ensures tried { MatchTried U.meaning U.ROOMS room ticket first seat.old seat.new result }
        ensures as_told { IsCovered seat.old.me.0.known room ticket → IsTriedIn result }
    {
        let grant = self.load_grant(seat, room, ticket, first);
        if ticket <= grant {
            let word = self.turn_in(seat, room, ticket, first, grant);
            return Tried::In(first_look(first, word), turn_of(word), grant);
        }
        let active = self.glance(seat, room, ticket, first);
        let first = first_look(first, active);
        if code_of(active) != 0 {
            return Tried::Barred(first, grant, active, None);
        }
        let turn = turn_of(active) + 1;
        let found = self.seize(seat, room, ticket, first, active);
        if found != active {
            return Tried::Barred(first, grant, active, Some(found));
        }
        let to = self.count(seat, room, ticket, Some(first), turn);
        self.admit(seat, room, ticket, first, turn, to);
        Tried::In(first, turn, to)
    }
}
