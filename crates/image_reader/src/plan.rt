//! How large each object of an image that is made up is, and where it stands.
ghost use Rattle.std.specs.Prelude.{◌≡◌, ◌≤◌, ◌^◌, IfOk, OnOk};
ghost use Rattle.image_reader.specs.Draws.{after};

use crate::draws::Draws;
use crate::shape::body;
use std::alloc::{AllocError, Global};

/// The objects of an image that is made up, before their words are drawn.
#[derive(Drop)]
pub struct Plan {
    /// The draws of the headers.
    pub shapes: Vec<u32>,
    /// Where the headers stand.
    pub heads: Vec<u32>,
    /// How many words there are.
    pub size: u32,
}

ghost use Rattle.image_reader.specs.Plan.{IsPlan};

/// The plan of so many objects, at most 2^20, by the next draws. It takes memory, and fails only
/// where memory runs out.
pub fn planned(alloc: Global, objects: u32, source: &mut Draws) -> Result<Plan, AllocError>
    requires { objects ≤ 2 ^ 20 }
    ensures plan { IfOk result (IsPlan source.old.number objects) }
    ensures number { OnOk result (source.new.number ≡ after source.old.number objects) }
{
    let mut shapes = Vec::with_capacity(alloc, objects as usize)?;
    let mut heads = Vec::with_capacity(alloc, objects as usize)?;
    let mut size = 0;
    for _object in 0..objects {
        let shape = source.draw();
        shapes.push(shape)?;
        heads.push(size)?;
        size += 1 + body(shape);
    }
    Ok(Plan {
        shapes,
        heads,
        size,
    })
}
