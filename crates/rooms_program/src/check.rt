//! The command `check`: an image in, a line that tells how large it is out.
ghost use Rattle.std.specs.Prelude.{◌≡◌, [], ◌∷◌, IfOk};
ghost use Rattle.room_script.specs.Prints.{text_of};
ghost use Rattle.rooms_program.specs.Runs.{Makes};
ghost use Rattle.rooms_program.specs.Sizes.{size_line};

use crate::status::Status;
use command_words::Command;
use image_core::Image;
use image_reader::read_image;
use std::alloc::{AllocError, Global};
use std::fmt::Write;

/// How large the image is that the bytes are, in print.
pub fn checked(alloc: Global, bytes: &[u8]) -> Result<Vec<u8>, Status>
    ensures { Makes Command.Check bytes.now result }
{
    let image = read_image(alloc, bytes)?;
    Ok(print_size(alloc, &image)?)
}

/// How large an image is, in print.
fn print_size(alloc: Global, image: &Image) -> Result<Vec<u8>, AllocError>
    ensures { IfOk result (λ text. text.items ≡ text_of (size_line image.now ∷ [])) }
{
    let words = image.words().len();
    let roots = image.roots().len();
    let objects = image.objects();
    let mut text = String::new(alloc);
    writeln!(text, "ok words {words} roots {roots} objects {objects}")?;
    Ok(text.into_bytes())
}
