//! The frame of the bytes of an image: magic, counts and length.
ghost use Rattle.std.specs.Prelude.{◌≡◌, ◌≤◌, length, IfOk, IfErr, IfSome, IfNone};
ghost use Rattle.image_reader.specs.Fault.{HasFault, HasMagic, IsOtherMagic};

use crate::words::word;
use image_core::{ImageFault, ImageKind};

/// The seven bytes that an image begins with. The digit of its format follows.
pub const MAGIC: &[u8; 7] = b"ROOMIMG";

/// The most heap words and the most roots of an image.
const MOST_WORDS: u64 = 1 << 22;

const MOST_ROOTS: u64 = 1 << 16;

/// The format of the bytes of an image, and how many words and roots they spell.
#[derive(Clone, Copy)]
pub struct Frame {
    /// The format, 1 or 2.
    pub format: u8,
    /// How many heap words follow, at most 2^22.
    pub words: usize,
    /// How many roots follow those, at most 2^16.
    pub roots: usize,
}

ghost use Rattle.image_reader.specs.Frame.{IsFrame};

/// What the header of bytes says, if the header and the length of the bytes pass their tests; else
/// the first of these that fails.
pub fn read_frame(bytes: &[u8]) -> Result<Frame, ImageFault>
    ensures frame { IfOk result (IsFrame bytes.now) }
    ensures fault { IfErr result (HasFault bytes.now) }
{
    let there = bytes.len() as u64;
    if there < 24 {
        return Err(ImageFault::new(ImageKind::Short, there, 24));
    }
    if let Some(place) = other_magic(bytes) {
        return Err(ImageFault::new(ImageKind::Magic, place as u64, u64::from(bytes[place])));
    }
    let words = word(bytes, 8);
    if words > MOST_WORDS {
        return Err(ImageFault::new(ImageKind::TooManyWords, 8, words));
    }
    let roots = word(bytes, 16);
    if roots > MOST_ROOTS {
        return Err(ImageFault::new(ImageKind::TooManyRoots, 16, roots));
    }
    let said = 24 + 8 * (words + roots);
    if there < said {
        return Err(ImageFault::new(ImageKind::Short, there, said));
    }
    if there > said {
        return Err(ImageFault::new(ImageKind::Long, said, u64::from(bytes[said as usize])));
    }
    Ok(Frame {
        format: bytes[7] - b'0',
        words: words as usize,
        roots: roots as usize,
    })
}

/// The place of the first byte that is not that of a magic.
fn other_magic(bytes: &[u8]) -> Option<usize>
    requires { 24 ≤ length bytes.now }
    ensures magic { IfNone result (HasMagic bytes.now) }
    ensures other { IfSome result (IsOtherMagic bytes.now) }
{
    for place in 0..MAGIC.len() {
        if bytes[place] != MAGIC[place] {
            return Some(place);
        }
    }
    if bytes[7] == b'1' || bytes[7] == b'2' {
        None
    } else {
        Some(7)
    }
}
