//! The heap words of an image that is made up.
ghost use Rattle.std.specs.Prelude.{◌≡◌, ◌≤◌, ◌+◌, ◌^◌, ◌∷◌, ◌++◌, map, IfOk, OnOk};
ghost use Rattle.image_reader.specs.Draws.{after, draws};
ghost use Rattle.image_reader.specs.Made.{refs, data_words, body, header, reference, drawn_before};

use crate::draws::Draws;
use crate::named::push_references;
use crate::plan::planned;
use crate::shape::{data_words, header, refs};
use std::alloc::{AllocError, Global};

/// The heap words of an image that is made up.
#[derive(Drop)]
pub struct Objects {
    /// The words of the objects, one after another.
    pub words: Vec<u64>,
    /// Where the headers stand.
    pub heads: Vec<u32>,
}

ghost use Rattle.image_reader.specs.Objects.{AreObjects};

/// So many objects, at most 2^20, by the next draws. It takes memory, and fails only where memory
/// runs out.
pub fn drawn_objects(alloc: Global, objects: u32, source: &mut Draws) -> Result<Objects, AllocError>
    requires { objects ≤ 2 ^ 20 }
    ensures made { IfOk result (AreObjects source.old.number objects) }
    ensures number { OnOk result (source.new.number
        ≡ after source.old.number (drawn_before source.old.number objects objects)) }
{
    let plan = planned(alloc, objects, source)?;
    let shapes = plan.shapes.as_slice();
    let heads = plan.heads.as_slice();
    let mut words = Vec::with_capacity(alloc, plan.size as usize)?;
    for object in 0..objects {
        let shape = shapes[object as usize];
        words.push(header(object, shape))?;
        push_body(&mut words, shape, heads, source)?;
    }
    Ok(Objects {
        words,
        heads: plan.heads,
    })
}

/// Appends the references and data of an object, at most 3 words, by the next draws. It fails only
/// where memory runs out.
fn push_body(
    out: &mut Vec<u64>,
    shape: u32,
    heads: &[u32],
    source: &mut Draws,
) -> Result<(), AllocError>
    ensures words { OnOk result (out.new.items ≡ out.old.items
        ++ map (reference heads.now) (draws source.old.number 0 (refs shape))
        ++ draws source.old.number (refs shape) (data_words shape)) }
    ensures number { OnOk result (source.new.number ≡ after source.old.number (body shape)) }
{
    push_references(out, refs(shape), heads, source)?;
    push_data(out, data_words(shape), source)?;
    Ok(())
}

/// Appends so many data words, the next draws. It fails only where memory runs out.
fn push_data(out: &mut Vec<u64>, count: u32, source: &mut Draws) -> Result<(), AllocError>
    ensures words { OnOk result (out.new.items ≡ out.old.items ++ draws source.old.number 0 count) }
    ensures number { OnOk result (source.new.number ≡ after source.old.number count) }
{
    for _word in 0..count {
        out.push(u64::from(source.draw()))?;
    }
    Ok(())
}
