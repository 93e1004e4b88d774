//! The command `make`: the bytes of an image that is made up.
ghost use Rattle.std.specs.Prelude.{◌≡◌, ◌≤◌, ◌^◌, IfOk, IfErr};
ghost use Rattle.image_reader.specs.Bytes.{IsImage};
ghost use Rattle.image_reader.specs.Made.{made};

use crate::status::Status;
use command_words::Made;
use image_reader::{make_image, write_image};
use std::alloc::Global;

/// The bytes of the image that is made up.
pub fn made_bytes(alloc: Global, wanted: Made) -> Result<Vec<u8>, Status>
    requires { wanted.objects ≤ 2 ^ 20 }
    ensures output { IfOk result (λ output. IsImage output.items (made wanted.objects wanted.seed)) }
    ensures memory { IfErr result (λ why. why ≡ Status.Memory) }
{
    let image = make_image(alloc, wanted.objects, wanted.seed)?;
    Ok(write_image(alloc, &image)?)
}
