//! The rows of a caller that leaves, ends the exit code and passes on, each one step on one word.
ghost use Rattle.std.specs.Prelude.{◌≡◌, ℕ, ◌+◌, ◌%◌, ◌^◌, ◌<◌, None, Some, []};
ghost use Rattle.room_core.specs.declared.phases.Phase.TheVariants as phases;
ghost use Rattle.room_rule.specs.Use.{RestsOn};
ghost use Rattle.room_rule.specs.Told.{Carries};
ghost use Rattle.room_rule.specs.declared.views.Role.TheVariants as roles;
ghost use Rattle.room_gate.specs.Rows.{Goes};
ghost use Rattle.room_gate.specs.LeavingRows.{departed, scanned, peered, passed_on, went_out};

use crate::plays::{Leaves, Steps};
use crate::rooms::Rooms;
use atomic_table::Seat;
use room_rule::{ACTIVE_PLACE, RoomUse, Shown, done_place, grant_place, pack, wait_place};

impl<U: RoomUse> Rooms<U> {
    /// Counts the departure; the number is how many had left before.
    pub(crate) fn depart(
        &self,
        seat: &mut Seat<Option<U::Slot>, Shown<U::View>>,
        room: usize,
        ticket: u64,
        first: u64,
        turn: u64,
        to: u64,
    ) -> u64
        requires own { seat.old.table_id ≡ self.now.site }
        requires room { room < U.ROOMS }
        requires role { seat.old.me.0.role ≡ roles.Pass }
        requires phase { seat.old.me.0.phase ≡ phases.Inside room ticket (Some first) turn to }
        requires may { U.meaning.may_leave self.now.usage seat.old.me.0.user }
        requires carries { Carries (U.meaning.keeps seat.old.me.0.user) seat.old.me.1 }
        ensures goes { Goes seat.old seat.new (departed room turn to result seat.new.me.0.kept seat.old.me.0) }
        ensures small { result + 1 < 2 ^ 64 }
        ensures no_slot { seat.new.me.1 ≡ [] }
    {
        self.table
            .shared
            .fetch_add::<Leaves>(seat, done_place(U::ROOMS, room), 1)
    }

    /// Ends the exit code, over words that rest: loads the tickets drawn for the room after this.
    pub(crate) fn end_exit(
        &self,
        seat: &mut Seat<Option<U::Slot>, Shown<U::View>>,
        room: usize,
        turn: u64,
        next: usize,
    ) -> u64
        requires own { seat.old.table_id ≡ self.now.site }
        requires room { room < U.ROOMS }
        requires next { next ≡ (room + 1) % U.ROOMS }
        requires role { seat.old.me.0.role ≡ roles.Pass }
        requires phase { seat.old.me.0.phase ≡ phases.Exiting room turn }
        requires rests { RestsOn U.meaning self.now.usage seat.old.me.0.kept seat.old.me.0.user }
        ensures { Goes seat.old seat.new (scanned room turn next result seat.old.me.0) }
    {
        self.table.shared.load::<Steps<U>>(seat, wait_place(next))
    }

    /// Loads the grant of the room that is scanned.
    pub(crate) fn peer(
        &self,
        seat: &mut Seat<Option<U::Slot>, Shown<U::View>>,
        room: usize,
        turn: u64,
        scanned: usize,
        drawn: u64,
    ) -> u64
        requires own { seat.old.table_id ≡ self.now.site }
        requires room { scanned < U.ROOMS }
        requires role { seat.old.me.0.role ≡ roles.Pass }
        requires phase { seat.old.me.0.phase ≡ phases.Peering room turn scanned drawn }
        ensures { Goes seat.old seat.new (peered U.ROOMS room turn scanned drawn result seat.old.me.0) }
    {
        self.table
            .shared
            .load::<Steps<U>>(seat, grant_place(U::ROOMS, scanned))
    }

    /// Loads the tickets drawn for the next room that is scanned.
    pub(crate) fn scan(
        &self,
        seat: &mut Seat<Option<U::Slot>, Shown<U::View>>,
        room: usize,
        turn: u64,
        next: usize,
    ) -> u64
        requires own { seat.old.table_id ≡ self.now.site }
        requires room { next < U.ROOMS }
        requires role { seat.old.me.0.role ≡ roles.Pass }
        requires phase { seat.old.me.0.phase ≡ phases.Scanning room turn next }
        ensures { Goes seat.old seat.new (scanned room turn next result seat.old.me.0) }
    {
        self.table.shared.load::<Steps<U>>(seat, wait_place(next))
    }

    /// Makes the active word that of the chosen room in the next turn.
    pub(crate) fn pass_on(
        &self,
        seat: &mut Seat<Option<U::Slot>, Shown<U::View>>,
        turn: u64,
        chosen: usize,
    )
        requires own { seat.old.table_id ≡ self.now.site }
        requires room { chosen < U.ROOMS }
        requires turn { turn < 2 ^ 57 }
        requires role { seat.old.me.0.role ≡ roles.Pass }
        requires phase { seat.old.me.0.phase ≡ phases.Passing turn (Some chosen) }
        ensures { Goes seat.old seat.new (passed_on turn chosen seat.old.me.0) }
    {
        let table = &self.table.shared;
        let new = pack(turn + 1, chosen as u8 + 1);
        table.store::<Steps<U>>(seat, ACTIVE_PLACE, new);
    }

    /// Makes the active word idle.
    pub(crate) fn pass_idle(&self, seat: &mut Seat<Option<U::Slot>, Shown<U::View>>, turn: u64)
        requires own { seat.old.table_id ≡ self.now.site }
        requires turn { turn < 2 ^ 57 }
        requires role { seat.old.me.0.role ≡ roles.Pass }
        requires phase { seat.old.me.0.phase ≡ phases.Passing turn None }
        ensures { Goes seat.old seat.new (went_out seat.old.me.0) }
    {
        let idle = pack(turn, 0);
        self.table
            .shared
            .store::<Steps<U>>(seat, ACTIVE_PLACE, idle);
    }

    /// Stores the grant of the chosen room, and is out.
    pub(crate) fn open_out(
        &self,
        seat: &mut Seat<Option<U::Slot>, Shown<U::View>>,
        chosen: usize,
        turn: u64,
        to: u64,
    )
        requires own { seat.old.table_id ≡ self.now.site }
        requires room { chosen < U.ROOMS }
        requires role { seat.old.me.0.role ≡ roles.Pass }
        requires phase { seat.old.me.0.phase ≡ phases.Admitting chosen 0 None turn to }
        ensures { Goes seat.old seat.new (went_out seat.old.me.0) }
    {
        self.table
            .shared
            .store::<Steps<U>>(seat, grant_place(U::ROOMS, chosen), to);
    }
}
