//! The reader of schedules.
ghost use Rattle.std.specs.Prelude.{◌≡◌, ◌⊎◌, ℕ, [], Err, IfOk, IfErr, MatchResult, IsErrAnd, All, map, take};
ghost use Rattle.room_script.specs.Breaks.{BreaksAt};
ghost use Rattle.room_script.specs.Lines.{lines_of, bytes_at, IsRange};
ghost use Rattle.room_script.specs.Schedules.{Plan, plan_of, Spells, IsSchedule};

use crate::faults::ScriptFault;
use crate::pieces::{Piece, line_at, lines};
use crate::schedule_lines::{is_title, read_act, read_callers, read_rooms};
use room_core::Act;
use std::alloc::Global;

/// A schedule: how many rooms and callers there are, and the acts in order, each with its caller.
#[derive(Debug, Drop)]
pub struct Schedule {
    /// From 1 to 7.
    pub rooms: u8,
    /// From 1 to 64.
    pub callers: u32,
    /// Each with the number of the caller that makes it, which may be one that does not exist.
    pub acts: Vec<(u64, Act)>,
}

const HEAD_LINES: usize = 3;

// The numbers of rooms and callers, in the first three lines.
fn read_head(text: &[u8], lines: &[Piece]) -> Result<(u8, u32), ScriptFault>
    requires { All (IsRange text.now) lines.now }
    ensures read { IfOk result (λ head. Spells (take 3 (map (bytes_at text.now) lines.now))
        (record { rooms = head.0; callers = head.1; acts = [] })) }
    ensures broken { IfErr result (λ e. (k : ℕ) × (e ≡ ScriptFault.Line k)
        × BreaksAt IsSchedule (map (bytes_at text.now) lines.now) k) }
{
    if !is_title(line_at(text, lines, 0)) {
        return Err(ScriptFault::Line(1));
    }
    let Some(rooms) = read_rooms(line_at(text, lines, 1)) else {
        return Err(ScriptFault::Line(2));
    };
    let Some(callers) = read_callers(line_at(text, lines, 2)) else {
        return Err(ScriptFault::Line(3));
    };
    Ok((rooms, callers))
}

/// Reads the text of a schedule. Its lines are `schedule 1`, `rooms M` with M from 1 to 7 and
/// `callers N` with N from 1 to 64, and then one for each act: `draw C R`, `step C` or `leave C`,
/// with any numbers C and R of 64 bits. It takes memory.
///
/// # Errors
///
/// `Line` exactly where the text has another form, with the number of the first line that breaks it;
/// one that is missing has the number after the last. `Memory` for want of memory.
pub fn read_schedule(alloc: Global, text: &[u8]) -> Result<Schedule, ScriptFault>
    ensures read { IfOk result (λ s. Spells (lines_of text.now) (plan_of s)) }
    ensures found { (p : Plan) → Spells (lines_of text.now) p
        → MatchResult result (λ s. plan_of s ≡ p) (λ e. e ≡ ScriptFault.Memory) }
    ensures broken { (k : ℕ) → result ≡ Err (ScriptFault.Line k)
        → BreaksAt IsSchedule (lines_of text.now) k }
    ensures told { (k : ℕ) → BreaksAt IsSchedule (lines_of text.now) k
        → IsErrAnd result (λ e. (e ≡ ScriptFault.Line k) ⊎ (e ≡ ScriptFault.Memory)) }
{
    let lines = lines(alloc, text)?;
    let (rooms, callers) = read_head(text, &lines)?;
    let mut acts = Vec::new(alloc);
    for i in HEAD_LINES..lines.len() {
        let line = lines[i];
        match read_act(&text[line.from..line.to]) {
            Some(act) => acts.push(act).map_err(|_| ScriptFault::Memory)?,
            None => return Err(ScriptFault::Line(i as u64 + 1)),
        }
    }
    Ok(Schedule {
        rooms,
        callers,
        acts,
    })
}
