//! The references and the roots of an image that is made up.
ghost use Rattle.std.specs.Prelude.{◌≡◌, ◌<◌, ◌++◌, map, min, length, IfOk, OnOk};
ghost use Rattle.image_reader.specs.Draws.{after, draws};
ghost use Rattle.image_reader.specs.Made.{reference, root};

use crate::draws::Draws;
use std::alloc::{AllocError, Global};

/// The most roots of an image that is made up.
const MOST_ROOTS: usize = 16;

/// The word of a reference: it names an object or is 0, by a draw. It takes no memory.
fn reference(heads: &[u32], drawn: u32) -> u64
    ensures { result ≡ reference heads.now drawn }
{
    let object = drawn as usize % (heads.len() + 1);
    if object == heads.len() {
        0
    } else {
        1 + u64::from(heads[object])
    }
}

/// The word of a root: it names an object, by a draw. It takes no memory.
fn root(heads: &[u32], drawn: u32) -> u64
    requires { 0 < length heads.now }
    ensures { result ≡ root heads.now drawn }
{
    1 + u64::from(heads[drawn as usize % heads.len()])
}

/// Appends so many references, by the next draws. It fails only where memory runs out.
pub fn push_references(
    out: &mut Vec<u64>,
    count: u32,
    heads: &[u32],
    source: &mut Draws,
) -> Result<(), AllocError>
    ensures words { OnOk result (out.new.items
        ≡ out.old.items ++ map (reference heads.now) (draws source.old.number 0 count)) }
    ensures number { OnOk result (source.new.number ≡ after source.old.number count) }
{
    for _word in 0..count {
        out.push(reference(heads, source.draw()))?;
    }
    Ok(())
}

/// The roots of objects whose headers stand at these places, by the next draws: as many as objects,
/// but at most 16. It takes memory, and fails only where memory runs out.
pub fn drawn_roots(alloc: Global, heads: &[u32], source: &mut Draws) -> Result<Vec<u64>, AllocError>
    ensures { IfOk result (λ roots. roots.items
        ≡ map (root heads.now) (draws source.old.number 0 (min (length heads.now) 16))) }
{
    let count = heads.len().min(MOST_ROOTS);
    let mut roots = Vec::with_capacity(alloc, count)?;
    for _root in 0..count {
        roots.push(root(heads, source.draw()))?;
    }
    Ok(roots)
}
