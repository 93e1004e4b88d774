//! The rows of a poll, each one step on one word.
ghost use Rattle.std.specs.Prelude.{◌≡◌, ℕ, ◌^◌, ◌<◌, ◌≤◌, Some, []};
ghost use Rattle.room_core.specs.declared.phases.Phase.TheVariants as phases;
ghost use Rattle.room_core.specs.Active as active_word;
ghost use Rattle.room_rule.specs.declared.views.Role.TheVariants as roles;
ghost use Rattle.room_rule.specs.Openings.{IsCovered};
ghost use Rattle.room_rule.specs.Told.{ComesIn, Carries};
ghost use Rattle.room_gate.specs.Rows.{Goes, looked, glanced, seized, counted, admitted, turned_in};

use crate::plays::Steps;
use crate::rooms::Rooms;
use atomic_table::Seat;
use room_rule::{ACTIVE_PLACE, RoomUse, Shown, grant_place, pack, turn_of, wait_place};

impl<U: RoomUse> Rooms<U> {
    /// Loads the grant of the room.
    pub(crate) fn load_grant(
        &self,
        seat: &mut Seat<Option<U::Slot>, Shown<U::View>>,
        room: usize,
        ticket: u64,
        first: Option<u64>,
    ) -> u64
        requires own { seat.old.table_id ≡ self.now.site }
        requires room { room < U.ROOMS }
        requires role { seat.old.me.0.role ≡ roles.Pass }
        requires phase { seat.old.me.0.phase ≡ phases.Looking room ticket first }
        ensures goes { Goes seat.old seat.new (looked room ticket first result seat.old.me.0) }
        ensures as_told { IsCovered seat.old.me.0.known room ticket → ticket ≤ result }
    {
        self.table
            .shared
            .load::<Steps<U>>(seat, grant_place(U::ROOMS, room))
    }

    /// Loads the active word, for a caller that was not let in.
    pub(crate) fn glance(
        &self,
        seat: &mut Seat<Option<U::Slot>, Shown<U::View>>,
        room: usize,
        ticket: u64,
        first: Option<u64>,
    ) -> u64
        requires own { seat.old.table_id ≡ self.now.site }
        requires role { seat.old.me.0.role ≡ roles.Pass }
        requires phase { seat.old.me.0.phase ≡ phases.Glancing room ticket first }
        ensures goes { Goes seat.old seat.new (glanced room ticket first result seat.old.me.0) }
        ensures small { result < 2 ^ 60 }
    {
        self.table.shared.load::<Steps<U>>(seat, ACTIVE_PLACE)
    }

    /// Makes the idle word that of the room in the next turn, if it still stands.
    pub(crate) fn seize(
        &self,
        seat: &mut Seat<Option<U::Slot>, Shown<U::View>>,
        room: usize,
        ticket: u64,
        first: u64,
        idle: u64,
    ) -> u64
        requires own { seat.old.table_id ≡ self.now.site }
        requires room { room < U.ROOMS }
        requires role { seat.old.me.0.role ≡ roles.Pass }
        requires phase { seat.old.me.0.phase ≡ phases.Seizing room ticket (Some first) idle }
        requires small { idle < 2 ^ 60 }
        ensures { Goes seat.old seat.new (seized room ticket (Some first) idle result seat.old.me.0) }
    {
        let table = &self.table.shared;
        let new = pack(turn_of(idle) + 1, room as u8 + 1);
        table.compare_exchange::<Steps<U>>(seat, ACTIVE_PLACE, idle, new)
    }

    /// Loads the wait of the room.
    pub(crate) fn count(
        &self,
        seat: &mut Seat<Option<U::Slot>, Shown<U::View>>,
        room: usize,
        ticket: u64,
        first: Option<u64>,
        turn: u64,
    ) -> u64
        requires own { seat.old.table_id ≡ self.now.site }
        requires room { room < U.ROOMS }
        requires role { seat.old.me.0.role ≡ roles.Pass }
        requires phase { seat.old.me.0.phase ≡ phases.Counting room ticket first turn }
        ensures { Goes seat.old seat.new (counted room ticket first turn result seat.old.me.0) }
    {
        self.table.shared.load::<Steps<U>>(seat, wait_place(room))
    }

    /// Stores the grant of the room, and enters.
    pub(crate) fn admit(
        &self,
        seat: &mut Seat<Option<U::Slot>, Shown<U::View>>,
        room: usize,
        ticket: u64,
        first: u64,
        turn: u64,
        to: u64,
    )
        requires own { seat.old.table_id ≡ self.now.site }
        requires room { room < U.ROOMS }
        requires ticket { 0 < ticket }
        requires role { seat.old.me.0.role ≡ roles.Pass }
        requires phase { seat.old.me.0.phase ≡ phases.Admitting room ticket (Some first) turn to }
        requires no_slot { seat.old.me.1 ≡ [] }
        ensures goes { Goes seat.old seat.new (admitted room ticket (Some first) turn to seat.new.me.0.seen seat.old.me.0) }
        ensures comes_in { ComesIn U.ROOMS room ticket turn to first seat.old.me.0.seen seat.new.me.0.seen }
        ensures in_a_new_turn { U.meaning.last seat.old.me.0.user < turn }
        ensures no_slot { Carries (U.meaning.keeps seat.old.me.0.user) seat.old.me.1 }
    {
        self.table
            .shared
            .store::<Steps<U>>(seat, grant_place(U::ROOMS, room), to);
    }

    /// Loads the turn, and enters.
    pub(crate) fn turn_in(
        &self,
        seat: &mut Seat<Option<U::Slot>, Shown<U::View>>,
        room: usize,
        ticket: u64,
        first: Option<u64>,
        to: u64,
    ) -> u64
        requires own { seat.old.table_id ≡ self.now.site }
        requires role { seat.old.me.0.role ≡ roles.Pass }
        requires phase { seat.old.me.0.phase ≡ phases.Turning room ticket first to }
        requires no_slot { seat.old.me.1 ≡ [] }
        ensures goes { Goes seat.old seat.new (turned_in room ticket first to result seat.new.me.0.seen seat.old.me.0) }
        ensures comes_in { (f : ℕ) → active_word.seen first result ≡ Some f → ComesIn U.ROOMS room ticket (active_word.turn_of result) to f seat.old.me.0.seen seat.new.me.0.seen }
        ensures in_a_new_turn { U.meaning.last seat.old.me.0.user < active_word.turn_of result }
        ensures no_slot { Carries (U.meaning.keeps seat.old.me.0.user) seat.old.me.1 }
    {
        self.table.shared.load::<Steps<U>>(seat, ACTIVE_PLACE)
    }
}
