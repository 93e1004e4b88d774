//! The image that bytes are.
ghost use Rattle.std.specs.Prelude.{IfOk};
ghost use Rattle.image_reader.specs.Bytes.{Spells};
ghost use Rattle.image_reader.specs.Frame.{IsFrame};
ghost use Rattle.image_reader.specs.Reading.{Reads};

use crate::frame::{Frame, read_frame};
use crate::words::words_of;
use image_core::{Image, ReadImage};
use std::alloc::{AllocError, Global};

/// The image that bytes are. `Fault` where a test of them fails: the first, with its place and value.
/// `Memory` where memory runs out.
pub fn read_image(alloc: Global, bytes: &[u8]) -> Result<Image, ReadImage>
    ensures { Reads bytes.now result }
{
    let frame = read_frame(bytes)?;
    let (words, roots) = words_and_roots(alloc, bytes, frame)?;
    Image::lawful(alloc, frame.format, words, roots)
}

/// The image that bytes are, as `read_image` tells it. The bytes are gone before the words that they
/// spell are tested, so that they do not stand in memory beside what those tests need.
pub fn into_image(alloc: Global, bytes: Vec<u8>) -> Result<Image, ReadImage>
    ensures { Reads bytes.items result }
{
    let frame = read_frame(&bytes)?;
    let (words, roots) = words_and_roots(alloc, &bytes, frame)?;
    drop(bytes);
    Image::lawful(alloc, frame.format, words, roots)
}

/// The words and roots that the bytes of a frame spell.
fn words_and_roots(
    alloc: Global,
    bytes: &[u8],
    frame: Frame,
) -> Result<(Vec<u64>, Vec<u64>), AllocError>
    requires { IsFrame bytes.now frame }
    ensures { IfOk result (λ found. Spells bytes.now frame.format found.0.items found.1.items) }
{
    let end = 24 + 8 * frame.words;
    let words = words_of(alloc, &bytes[24..end], frame.words)?;
    let roots = words_of(alloc, &bytes[end..], frame.roots)?;
    Ok((words, roots))
}
