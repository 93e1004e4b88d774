//! Trials, and their reader.
ghost use Rattle.std.specs.Prelude.{◌≡◌, ◌⊎◌, ℕ, [], ◌∷◌, true, false, Err, IfOk, IfErr, MatchResult, IsErrAnd, All, map, take};
ghost use Rattle.room_script.specs.Breaks.{BreaksAt};
ghost use Rattle.room_script.specs.Lines.{lines_of, bytes_at, IsRange};
ghost use Rattle.room_script.specs.Trials.{Outline, outline_of, IsNext, IsWrong, SpellsIn, SpellsTrial, IsTrial};

use crate::faults::ScriptFault;
use crate::pieces::{Piece, line_at, lines};
use crate::trial_lines::{is_caller, read_blocks, read_call, read_draws, read_layout, read_title};
use bay_core::Layout;
use std::alloc::{AllocError, Global};
use std::mem;

/// A line of a caller's script: one call on the bay.
#[derive(Clone, Copy, Debug, PartialEq, Eq)]
pub enum Line {
    /// Puts this item on the stack.
    Push(u64),
    /// Takes the top item of the stack.
    Pop,
    /// Puts this item at the end of the queue.
    Enq(u64),
    /// Takes the oldest item of the queue.
    Deq,
    /// Looks at the top item of the stack.
    Peek,
    /// Looks how long the stack and the queue are.
    Sizes,
}

/// A trial: a bay, and what its callers do.
#[derive(Debug, Drop)]
pub struct Trial {
    /// How the bay lays out its cells.
    pub layout: Layout,
    /// The bay's number of blocks, from 1 to 16384, and at least 2 with `Paged`.
    pub blocks: u32,
    /// The draws that each caller may make, from 1 to 281474976710656.
    pub draws: u64,
    /// A script for each of the 1 to 64 callers, by the caller's number.
    pub scripts: Vec<Vec<Line>>,
}

const HEAD_LINES: usize = 5;

const MOST_CALLERS: usize = 64;

// What the first five lines say, of which the last begins the first script: the form of the text, the
// layout and the numbers of blocks and draws.
struct Head {
    form: u64,
    layout: Layout,
    blocks: u32,
    draws: u64,
}

// The first five lines.
fn read_trial_head(text: &[u8], lines: &[Piece]) -> Result<Head, ScriptFault>
    requires { All (IsRange text.now) lines.now }
    ensures read { IfOk result (λ head. SpellsIn head.form (take 5 (map (bytes_at text.now) lines.now))
        (record { layout = head.layout; blocks = head.blocks; draws = head.draws; scripts = [] ∷ [] })) }
    ensures broken { IfErr result (λ e. (k : ℕ) × (e ≡ ScriptFault.Line k)
        × BreaksAt IsTrial (map (bytes_at text.now) lines.now) k) }
{
    let Some(form) = read_title(line_at(text, lines, 0)) else {
        return Err(ScriptFault::Line(1));
    };
    let Some(layout) = read_layout(line_at(text, lines, 1)) else {
        return Err(ScriptFault::Line(2));
    };
    let Some(blocks) = read_blocks(layout, line_at(text, lines, 2)) else {
        return Err(ScriptFault::Line(3));
    };
    let Some(draws) = read_draws(line_at(text, lines, 3)) else {
        return Err(ScriptFault::Line(4));
    };
    if !is_caller(line_at(text, lines, 4)) {
        return Err(ScriptFault::Line(5));
    }
    Ok(Head {
        form,
        layout,
        blocks,
        draws,
    })
}

// Whether the line may follow the scripts in this form, the last of which is `script`: it is the next
// call of that one, or it begins another and they are not too many. It is then added to them.
fn add_line(
    alloc: Global,
    form: u64,
    scripts: &mut Vec<Vec<Line>>,
    script: &mut Vec<Line>,
    line: &[u8],
) -> Result<bool, AllocError>
    ensures next { result ≡ Ok true → IsNext form (map (λ s. s.items) scripts.old.items) script.old.items
        line.now (map (λ s. s.items) scripts.new.items) script.new.items }
    ensures wrong { result ≡ Ok false → IsWrong form (map (λ s. s.items) scripts.old.items) line.now }
{
    if is_caller(line) {
        if scripts.len() + 1 >= MOST_CALLERS {
            return Ok(false);
        }
        scripts.push(mem::replace(script, Vec::new(alloc)))?;
        return Ok(true);
    }
    let Some(call) = read_call(form, line) else {
        return Ok(false);
    };
    script.push(call)?;
    Ok(true)
}

/// Reads the text of a trial. Its lines are `trial 1` or `trial 2`, `layout split` or `layout paged`,
/// `blocks B` with B from 1 to 16384, or from 2 on with `paged`, `draws D` with D from 1 to
/// 281474976710656, and `caller`; then each is `caller`, `push X`, `pop`, `enq X` or `deq`, with any
/// number X of 64 bits, or after `trial 2` also `peek` or `sizes`. Each `caller` begins the script of
/// the next caller, of which there are at most 64, and the lines after it are that script. It takes
/// memory from `alloc`.
///
/// # Errors
///
/// `Line` exactly where the text has another form, with the number of the first line that breaks
/// it; one that is missing has the number after the last. `Memory` for want of memory.
pub fn read_trial(alloc: Global, text: &[u8]) -> Result<Trial, ScriptFault>
    ensures read { IfOk result (λ t. SpellsTrial (lines_of text.now) (outline_of t)) }
    ensures found { (o : Outline) → SpellsTrial (lines_of text.now) o
        → MatchResult result (λ t. outline_of t ≡ o) (λ e. e ≡ ScriptFault.Memory) }
    ensures broken { (k : ℕ) → result ≡ Err (ScriptFault.Line k)
        → BreaksAt IsTrial (lines_of text.now) k }
    ensures told { (k : ℕ) → BreaksAt IsTrial (lines_of text.now) k
        → IsErrAnd result (λ e. (e ≡ ScriptFault.Line k) ⊎ (e ≡ ScriptFault.Memory)) }
{
    let lines = lines(alloc, text)?;
    let Head {
        form,
        layout,
        blocks,
        draws,
    } = read_trial_head(text, &lines)?;
    let mut scripts = Vec::new(alloc);
    let mut script = Vec::new(alloc);
    for i in HEAD_LINES..lines.len() {
        let line = lines[i];
        match add_line(
            alloc,
            form,
            &mut scripts,
            &mut script,
            &text[line.from..line.to],
        ) {
            Ok(true) => {}
            Ok(false) => return Err(ScriptFault::Line(i as u64 + 1)),
            Err(_) => return Err(ScriptFault::Memory),
        }
    }
    scripts.push(script).map_err(|_| ScriptFault::Memory)?;
    Ok(Trial {
        layout,
        blocks,
        draws,
        scripts,
    })
}
