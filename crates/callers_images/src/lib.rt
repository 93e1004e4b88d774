//! A caller to copy: bytes are read as an image, and the image is written again.
#![tactic(auto)]

ghost use Rattle.std.specs.Prelude.{◌≡◌, IfOk, IfErr};
ghost use Rattle.image_core.specs.Heap.{Heap};
ghost use Rattle.image_core.specs.Fault.{OnFault};
ghost use Rattle.image_reader.specs.Bytes.{IsImage};
ghost use Rattle.image_reader.specs.Fault.{HasFault};

use image_core::ReadImage;
use image_reader::{read_image, write_image};
use std::alloc::Global;

/// Reads the bytes of an image and writes that image again: both are the bytes of one image. It takes
/// memory for the image and for its bytes, and waits for nobody.
///
/// # Errors
///
/// `ReadImage::Fault` where the bytes are no image, with the first test that they fail;
/// `ReadImage::Memory` for want of memory.
pub fn written_again(alloc: Global, bytes: &[u8]) -> Result<Vec<u8>, ReadImage>
    ensures same { IfOk result (λ written. (image : Heap) × IsImage bytes.now image × IsImage written.items image) }
    ensures fault { IfErr result (λ refusal. OnFault refusal (HasFault bytes.now)) }
{
    let image = read_image(alloc, bytes)?;
    Ok(write_image(alloc, &image)?)
}

#[cfg(test)]
mod tests;
