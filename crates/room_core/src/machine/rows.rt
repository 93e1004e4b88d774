//! One function a row, in the order of the table: what the step finds, and so the next phase.
ghost use Rattle.std.specs.Prelude.{◌≡◌, ◌<◌, ◌^◌, ◌*◌, ◌+◌, length, IfSome, Some, None};
ghost use Rattle.room_core.specs.Active.{turn_of, code_of, pack, seen};
ghost use Rattle.room_core.specs.Moves.{looking_move, glancing_move, seizing_move, counting_move, admitting_move, turning_move, exiting_move, peering_move, scanning_move, passing_move};
ghost use Rattle.room_core.specs.Machine.{made, drawing, leaving, next_room};
ghost use Rattle.room_core.specs.Core.{IsSized, IsSmall};

use crate::items::{Event, Item};
use crate::machine::Core;
use crate::phases::Phase;
use crate::words::{Touch, Word};

impl Core {
    // Out, where a ticket is drawn: adds 1 to the wait of the room.
    pub(crate) fn draw(&self, room: u8) -> (Phase, Event)
        requires room { room < length self.now.words.wait }
        requires small { IsSmall self.now }
        ensures { result ≡ drawing self.now.words room }
    {
        let old = self.words.wait[room as usize];
        let next = Phase::Looking {
            room,
            ticket: old + 1,
            first: None,
        };
        (next, event(added(Word::Wait(room), old), None, None))
    }

    // Looking: loads the grant of the room.
    pub(crate) fn look(&self, room: u8, ticket: u64, first: Option<u64>) -> (Phase, Event)
        requires room { room < length self.now.words.wait }
        requires sized { IsSized self.now }
        ensures { result ≡ made self.now.words (looking_move room ticket first) }
    {
        let granted = self.words.grant[room as usize];
        let next = if ticket <= granted {
            Phase::Turning {
                room,
                ticket,
                first,
                to: granted,
            }
        } else {
            Phase::Glancing {
                room,
                ticket,
                first,
            }
        };
        (next, event(loaded(Word::Grant(room), granted), None, None))
    }

    // Glancing: loads the active word.
    pub(crate) fn glance(&self, room: u8, ticket: u64, first: Option<u64>) -> (Phase, Event)
        ensures { result ≡ made self.now.words (glancing_move room ticket first) }
    {
        let active = self.words.active;
        let first = first_seen(first, active);
        let next = if code(active) == 0 {
            Phase::Seizing {
                room,
                ticket,
                first,
                idle: active,
            }
        } else {
            Phase::Looking {
                room,
                ticket,
                first,
            }
        };
        (next, event(loaded(Word::Active, active), None, None))
    }

    // Seizing: swaps the idle word for one that opens the room in the next turn.
    pub(crate) fn seize(
        &self,
        room: u8,
        ticket: u64,
        first: Option<u64>,
        idle: u64,
    ) -> (Phase, Event)
        requires room { room < 7 }
        requires idle { idle < 2 ^ 60 }
        ensures { result ≡ made self.now.words (seizing_move room ticket first idle) }
    {
        let found = self.words.active;
        let turn = turn(idle) + 1;
        let new = packed(turn, room as u64 + 1);
        let won = found == idle;
        let next = if won {
            Phase::Counting {
                room,
                ticket,
                first,
                turn,
            }
        } else {
            Phase::Looking {
                room,
                ticket,
                first,
            }
        };
        (next, event(Touch::Swap { found, new, won }, None, None))
    }

    // Counting: loads the wait of the room.
    pub(crate) fn count(
        &self,
        room: u8,
        ticket: u64,
        first: Option<u64>,
        turn: u64,
    ) -> (Phase, Event)
        requires room { room < length self.now.words.wait }
        ensures { result ≡ made self.now.words (counting_move room ticket first turn) }
    {
        let to = self.words.wait[room as usize];
        let next = Phase::Admitting {
            room,
            ticket,
            first,
            turn,
            to,
        };
        (next, event(loaded(Word::Wait(room), to), None, None))
    }

    // Admitting: stores the grant of the room, and enters with a ticket.
    pub(crate) fn admit(
        &self,
        caller: usize,
        room: u8,
        ticket: u64,
        first: Option<u64>,
        turn: u64,
        to: u64,
    ) -> (Phase, Event)
        requires caller { caller < 64 }
        requires room { room < length self.now.words.wait }
        requires sized { IsSized self.now }
        ensures { result ≡ made self.now.words (admitting_move caller room ticket first turn to) }
    {
        let from = self.words.grant[room as usize];
        let touch = stored(Word::Grant(room), to);
        let opened = Some(Item::Opened {
            turn,
            room,
            from,
            to,
        });
        if ticket == 0 {
            return (Phase::Out, event(touch, opened, None));
        }
        let next = Phase::Inside {
            room,
            ticket,
            first,
            turn,
            to,
        };
        (next, event(touch, opened, Some(entered(caller, room))))
    }

    // Turning: loads the active word, and enters.
    pub(crate) fn turn_in(
        &self,
        caller: usize,
        room: u8,
        ticket: u64,
        first: Option<u64>,
        to: u64,
    ) -> (Phase, Event)
        requires caller { caller < 64 }
        ensures { result ≡ made self.now.words (turning_move caller room ticket first to) }
    {
        let active = self.words.active;
        let first = first_seen(first, active);
        let next = Phase::Inside {
            room,
            ticket,
            first,
            turn: turn(active),
            to,
        };
        (
            next,
            event(
                loaded(Word::Active, active),
                Some(entered(caller, room)),
                None,
            ),
        )
    }

    // Inside, where the caller leaves: adds 1 to the departures of the room.
    pub(crate) fn depart(&self, caller: usize, room: u8, turn: u64, to: u64) -> (Phase, Event)
        requires caller { caller < 64 }
        requires room { room < length self.now.words.wait }
        requires small { IsSmall self.now }
        requires sized { IsSized self.now }
        ensures { result ≡ leaving self.now.words caller room turn to }
    {
        let old = self.words.done[room as usize];
        let touch = added(Word::Done(room), old);
        let left = Some(Item::Left {
            caller: caller as u32,
        });
        if old + 1 == to {
            let begun = Some(Item::ExitBegun { room });
            (Phase::Exiting { room, turn }, event(touch, left, begun))
        } else {
            (Phase::Out, event(touch, left, None))
        }
    }

    // Exiting: loads the wait of the next room, after the exit code.
    pub(crate) fn end_exit(&self, room: u8, turn: u64) -> (Phase, Event)
        requires room { room < length self.now.words.wait }
        requires sized { IsSized self.now }
        ensures { let s = self.now.words in result ≡ made s (exiting_move (length s.wait) room turn) }
    {
        let k = self.next_room(room);
        let w = self.words.wait[k as usize];
        let ended = Some(Item::ExitEnded { room });
        (
            Phase::Peering { room, turn, k, w },
            event(loaded(Word::Wait(k), w), ended, None),
        )
    }

    // Peering: loads the grant of room k, and chooses it, goes on, or ends the round.
    pub(crate) fn peer(&self, room: u8, turn: u64, k: u8, w: u64) -> (Phase, Event)
        requires k { k < length self.now.words.wait }
        requires sized { IsSized self.now }
        ensures { let s = self.now.words in result ≡ made s (peering_move (length s.wait) room turn k w) }
    {
        let granted = self.words.grant[k as usize];
        let next = if granted < w {
            Phase::Passing {
                turn,
                next: Some(k),
            }
        } else if k == room {
            Phase::Passing { turn, next: None }
        } else {
            let k = self.next_room(k);
            Phase::Scanning { room, turn, k }
        };
        (next, event(loaded(Word::Grant(k), granted), None, None))
    }

    // Scanning: loads the wait of room k.
    pub(crate) fn scan(&self, room: u8, turn: u64, k: u8) -> (Phase, Event)
        requires k { k < length self.now.words.wait }
        ensures { result ≡ made self.now.words (scanning_move room turn k) }
    {
        let w = self.words.wait[k as usize];
        (
            Phase::Peering { room, turn, k, w },
            event(loaded(Word::Wait(k), w), None, None),
        )
    }

    // Passing: stores the active word, for room k in the next turn, or idle in this one.
    pub(crate) fn pass(&self, turn: u64, next: Option<u8>) -> (Phase, Event)
        requires turn { turn < 2 ^ 57 }
        requires next { IfSome next (λ k. k < 7) }
        ensures { result ≡ made self.now.words (passing_move turn next) }
    {
        match next {
            Some(k) => {
                let turn = turn + 1;
                let next = Phase::Counting {
                    room: k,
                    ticket: 0,
                    first: None,
                    turn,
                };
                (
                    next,
                    event(stored(Word::Active, packed(turn, k as u64 + 1)), None, None),
                )
            }
            None => (
                Phase::Out,
                event(stored(Word::Active, packed(turn, 0)), None, None),
            ),
        }
    }

    // The room after k, round.
    fn next_room(&self, k: u8) -> u8
        requires k { k < length self.now.words.wait }
        requires sized { IsSized self.now }
        ensures next { result ≡ next_room self.now.words k }
        ensures below { result < length self.now.words.wait }
    {
        let rooms = self.words.wait.len() as u8;
        (k + 1) % rooms
    }
}

fn event(touch: Touch, one: Option<Item>, two: Option<Item>) -> Event
    ensures { result ≡ record { touch = touch; one = one; two = two } }
{
    Event { touch, one, two }
}

fn added(word: Word, old: u64) -> Touch
    ensures { result ≡ Touch.Add word old }
{
    Touch::Add { word, old }
}

fn loaded(word: Word, value: u64) -> Touch
    ensures { result ≡ Touch.Load word value }
{
    Touch::Load { word, value }
}

fn stored(word: Word, value: u64) -> Touch
    ensures { result ≡ Touch.Store word value }
{
    Touch::Store { word, value }
}

fn entered(caller: usize, room: u8) -> Item
    requires { caller < 64 }
    ensures { result ≡ Item.Entered caller room }
{
    Item::Entered {
        caller: caller as u32,
        room,
    }
}

// The turn of the first load of the active word: the earlier one, or this.
fn first_seen(first: Option<u64>, word: u64) -> Option<u64>
    ensures { result ≡ seen first word }
{
    Some(first.unwrap_or(turn(word)))
}

fn turn(word: u64) -> u64
    ensures { result ≡ turn_of word }
{
    word / 8
}

fn code(word: u64) -> u64
    ensures { result ≡ code_of word }
{
    word % 8
}

fn packed(turn: u64, code: u64) -> u64
    requires small { turn < 2 ^ 60 }
    requires few { code < 8 }
    ensures { result ≡ pack turn code }
{
    8 * turn + code
}
