//! Images that are made up by rule from a seed.
ghost use Rattle.std.specs.Prelude.{◌≡◌, ◌≤◌, ◌^◌, IfOk};
ghost use Rattle.image_reader.specs.Made.{made};

use crate::draws::Draws;
use crate::named::drawn_roots;
use crate::objects::drawn_objects;
use image_core::Image;
use std::alloc::{AllocError, Global};

/// The image of format 1 of so many objects, at most 2^20, that is made up by rule from a seed: the
/// same one each time. It takes memory in proportion to the objects, of which each has at most 4 words, and
/// fails only where memory runs out.
pub fn make_image(alloc: Global, objects: u32, seed: u64) -> Result<Image, AllocError>
    requires { objects ≤ 2 ^ 20 }
    ensures { IfOk result (λ image. image ≡ made objects seed) }
{
    let mut source = Draws::new(seed);
    let drawn = drawn_objects(alloc, objects, &mut source)?;
    let roots = drawn_roots(alloc, drawn.heads.as_slice(), &mut source)?;
    Image::from_lawful(alloc, 1, drawn.words, roots, drawn.heads)
}
