//! The lines of a schedule.
ghost use Rattle.std.specs.Prelude.{◌≡◌, ℕ, ◌↔◌, Some, IsTrue, codes};
ghost use Rattle.room_script.specs.Schedules.{IsRooms, IsCallers, IsAct, rooms_line, callers_line, act_line};

use crate::numbers::{number_after, two_numbers};
use room_core::Act;

const MOST_ROOMS: u64 = 7;

const MOST_CALLERS: u64 = 64;

/// Whether the line is the first one of a schedule.
pub fn is_title(line: &[u8]) -> bool
    ensures { IsTrue result ↔ (line.now ≡ codes "schedule 1") }
{
    line == b"schedule 1".as_slice()
}

/// The number of rooms, where the line gives one from 1 to 7.
pub fn read_rooms(line: &[u8]) -> Option<u8>
    ensures { (m : ℕ) → (result ≡ Some m) ↔ (IsRooms m × (line.now ≡ rooms_line m)) }
{
    let rooms = number_after(b"rooms ", line)?;
    if rooms == 0 || rooms > MOST_ROOMS {
        return None;
    }
    Some(rooms as u8)
}

/// The number of callers, where the line gives one from 1 to 64.
pub fn read_callers(line: &[u8]) -> Option<u32>
    ensures { (n : ℕ) → (result ≡ Some n) ↔ (IsCallers n × (line.now ≡ callers_line n)) }
{
    let callers = number_after(b"callers ", line)?;
    if callers == 0 || callers > MOST_CALLERS {
        return None;
    }
    Some(callers as u32)
}

/// The act and its caller, where the line gives them.
pub fn read_act(line: &[u8]) -> Option<(u64, Act)>
    ensures { (a : ℕ × Act) → (result ≡ Some a) ↔ (IsAct a × (line.now ≡ act_line a)) }
{
    if let Some(numbers) = line.strip_prefix(b"draw ") {
        let (caller, room) = two_numbers(numbers)?;
        return Some((caller, Act::Draw(room)));
    }
    if let Some(caller) = number_after(b"step ", line) {
        return Some((caller, Act::Step));
    }
    let caller = number_after(b"leave ", line)?;
    Some((caller, Act::Leave))
}
