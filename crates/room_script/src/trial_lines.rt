//! The lines of a trial.
ghost use Rattle.std.specs.Prelude.{◌≡◌, ℕ, ◌↔◌, Some, IsTrue};
ghost use Rattle.bay_core.specs.declared.calls.Layout.{Layout};
ghost use Rattle.room_script.specs.declared.trials.Line.{Line};
ghost use Rattle.room_script.specs.Trials.{IsForm, least_blocks, IsBlocks, IsDraws, IsCallLine, title_line, layout_line, blocks_line, draws_line, caller_line};

use crate::numbers::number_after;
use crate::trials::Line;
use bay_core::{Layout, MOST_BLOCKS, MOST_DRAWS};

// The form that has lines for the calls that look.
const LOOKING: u64 = 2;

/// The form of the text, where the line is the first one of a trial.
pub fn read_title(line: &[u8]) -> Option<u64>
    ensures { (n : ℕ) → (result ≡ Some n) ↔ (IsForm n × (line.now ≡ title_line n)) }
{
    let form = number_after(b"trial ", line)?;
    if form == 0 || form > LOOKING {
        return None;
    }
    Some(form)
}

/// The layout, where the line gives one.
pub fn read_layout(line: &[u8]) -> Option<Layout>
    ensures { (l : Layout) → (result ≡ Some l) ↔ (line.now ≡ layout_line l) }
{
    if line == b"layout split".as_slice() {
        return Some(Layout::Split);
    }
    if line == b"layout paged".as_slice() {
        return Some(Layout::Paged);
    }
    None
}

// The least number of blocks.
fn least(layout: Layout) -> u64
    ensures { result ≡ least_blocks layout }
{
    match layout {
        Layout::Split => 1,
        Layout::Paged => 2,
    }
}

/// The number of blocks, where the line gives one from 1 to 16384, or with `Paged` from 2 on.
pub fn read_blocks(layout: Layout, line: &[u8]) -> Option<u32>
    ensures { (n : ℕ) → (result ≡ Some n) ↔ (IsBlocks layout n × (line.now ≡ blocks_line n)) }
{
    let blocks = number_after(b"blocks ", line)?;
    if blocks < least(layout) || blocks > MOST_BLOCKS as u64 {
        return None;
    }
    Some(blocks as u32)
}

/// The number of draws, where the line gives one from 1 to 2^48.
pub fn read_draws(line: &[u8]) -> Option<u64>
    ensures { (n : ℕ) → (result ≡ Some n) ↔ (IsDraws n × (line.now ≡ draws_line n)) }
{
    let draws = number_after(b"draws ", line)?;
    if draws == 0 || draws > MOST_DRAWS {
        return None;
    }
    Some(draws)
}

/// Whether the line begins a caller's script.
pub fn is_caller(line: &[u8]) -> bool
    ensures { IsTrue result ↔ (line.now ≡ caller_line) }
{
    line == b"caller".as_slice()
}

/// The call, where the line gives one in this form.
pub fn read_call(form: u64, line: &[u8]) -> Option<Line>
    ensures { (a : Line) → (result ≡ Some a) ↔ IsCallLine form line.now a }
{
    if let Some(item) = number_after(b"push ", line) {
        return Some(Line::Push(item));
    }
    if let Some(item) = number_after(b"enq ", line) {
        return Some(Line::Enq(item));
    }
    if line == b"pop".as_slice() {
        return Some(Line::Pop);
    }
    if line == b"deq".as_slice() {
        return Some(Line::Deq);
    }
    if form == LOOKING && line == b"peek".as_slice() {
        return Some(Line::Peek);
    }
    if form == LOOKING && line == b"sizes".as_slice() {
        return Some(Line::Sizes);
    }
    None
}
