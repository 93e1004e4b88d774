//! The bytes of an image.
ghost use Rattle.std.specs.Prelude.{◌≡◌, IfOk};
ghost use Rattle.image_core.specs.Heap.{Heap};
ghost use Rattle.image_reader.specs.Bytes.{IsImage};

use crate::frame::MAGIC;
use crate::words::push_words;
use image_core::Image;
use std::alloc::{AllocError, Global};

/// The bytes of an image, in its own format, of which `read_image` gives that image again.
pub fn write_image(alloc: Global, image: &Image) -> Result<Vec<u8>, AllocError>
    ensures image { IfOk result (λ bytes. IsImage bytes.items image.now) }
    // They are the bytes of no other heap.
    ensures only { IfOk result (λ bytes. (heap : Heap) → IsImage bytes.items heap → heap ≡ image.now) }
{
    let words = image.words();
    let roots = image.roots();
    let mut out = Vec::with_capacity(alloc, 24 + 8 * (words.len() + roots.len()))?;
    out.extend_from_slice(MAGIC)?;
    out.push(b'0' + image.format())?;
    out.extend_from_slice(&(words.len() as u64).to_le_bytes())?;
    out.extend_from_slice(&(roots.len() as u64).to_le_bytes())?;
    push_words(&mut out, words)?;
    push_words(&mut out, roots)?;
    Ok(out)
}
