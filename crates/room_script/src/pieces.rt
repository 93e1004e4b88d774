//! Lines and parts of a text.
ghost use Rattle.std.specs.Prelude.{◌≡◌, ◌==◌, [], ◌∷◌, ◌++◌, IfOk, All, map, slice_index_or};
ghost use Rattle.std.specs.List.{slice_split};
ghost use Rattle.room_script.specs.Lines.{lines_of, parts_of, bytes_at, IsRange, StandAt};

use std::alloc::{AllocError, Global};

/// A range of a text: its bytes from `from` up to, not including, `to`.
#[derive(Clone, Copy, Debug, PartialEq, Eq)]
pub struct Piece {
    /// The place of its first byte.
    pub from: usize,
    /// The place after its last byte; `from` where it is empty.
    pub to: usize,
}

/// The lines of a text, in order and without their newlines: it is cut at each newline. A newline
/// that ends the text begins no further line, and an empty text has no lines.
///
/// # Errors
///
/// Want of memory alone.
pub fn lines(alloc: Global, text: &[u8]) -> Result<Vec<Piece>, AllocError>
    ensures { IfOk result (λ v. StandAt text.now 0 (lines_of text.now) v.items) }
{
    let whole = Piece {
        from: 0,
        to: text.len(),
    };
    let (mut pieces, rest) = cut(alloc, text, whole, b'\n')?;
    if rest.from < rest.to {
        pieces.push(rest)?;
    }
    Ok(pieces)
}

/// The parts of a line, in order: it is cut at each space. Two spaces together have an empty part
/// between them, and an empty line has one empty part.
///
/// # Errors
///
/// Want of memory alone.
pub fn parts(alloc: Global, text: &[u8], line: Piece) -> Result<Vec<Piece>, AllocError>
    requires { IsRange text.now line }
    ensures { IfOk result
        (λ v. StandAt text.now line.from (parts_of (bytes_at text.now line)) v.items) }
{
    let (mut pieces, rest) = cut(alloc, text, line, b' ')?;
    pieces.push(rest)?;
    Ok(pieces)
}

/// The bytes of the line with this number, counted from 0. A line that is missing counts as empty.
pub fn line_at<'a>(text: &'a [u8], lines: &[Piece], at: usize) -> &'a [u8]
    requires { All (IsRange text.now) lines.now }
    ensures { result.now ≡ slice_index_or (map (bytes_at text.now) lines.now) at [] }
{
    match lines.get(at) {
        Some(line) => &text[line.from..line.to],
        None => &[],
    }
}

// The pieces of `whole` that end at its separators, and the rest after them.
fn cut(
    alloc: Global,
    text: &[u8],
    whole: Piece,
    separator: u8,
) -> Result<(Vec<Piece>, Piece), AllocError>
    requires { IsRange text.now whole }
    ensures { IfOk result (λ cut. StandAt text.now whole.from
        (slice_split (λ b. b == separator) (bytes_at text.now whole))
        (cut.0.items ++ cut.1 ∷ [])) }
{
    let mut pieces = Vec::new(alloc);
    let mut from = whole.from;
    for at in whole.from..whole.to {
        if text[at] == separator {
            pieces.push(Piece { from, to: at })?;
            from = at + 1;
        }
    }
    Ok((pieces, Piece { from, to: whole.to }))
}
