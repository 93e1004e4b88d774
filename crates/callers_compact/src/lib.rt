//! A caller to copy: an image is read from one device, compacted by a crew and written to another.
#![tactic(auto)]

ghost use Rattle.std.specs.Prelude.{◌≡◌, ◌⊎◌, true, false, IfOk};
ghost use Rattle.room_io.specs.Causes.{Rose};
ghost use Rattle.work_pool.specs.Crews.{IsCrew};
ghost use Rattle.image_slide.specs.Compact.{IsCompacted};
ghost use Rattle.callers_compact.specs.Compacts.{IsPassedOn};

use image_core::ReadImage;
use image_mark::mark_with;
use image_reader::{read_image, write_image};
use image_slide::slide_with;
use room_io::{Sink, Source, read_up_to, write_whole};
use std::alloc::Global;
use std::sync::Wait;
use std::thread::Threads;
use work_pool::{Crew, OpenGate};

/// The most bytes of an image, and one more.
const MOST: usize = 34_078_745;

// The bytes of the image's live objects alone.
fn compacted<R: Threads + Wait + Sync>(
    rt: &R,
    alloc: Global,
    crew: &Crew,
    bytes: &[u8],
) -> Result<Vec<u8>, ReadImage>
    requires { IsCrew crew.now }
    ensures { IfOk result (λ out. IsCompacted bytes.now out.items) }
{
    let image = read_image(alloc, bytes)?;
    let marks = mark_with(rt, alloc, &image, crew, &OpenGate)?;
    let slid = slide_with(rt, alloc, &image, &marks.live, crew, &OpenGate)?;
    Ok(write_image(alloc, &slid)?)
}

/// Reads an image to its end, and writes its live objects alone, in order and without gaps, whatever the
/// crew. It answers whether the whole was written: not where a read or a write failed, where the bytes are
/// no image, or for want of memory; the sink is then as it was, unless a write failed. It waits for the
/// crew's workers.
#[tactic(auto, using(crate::proofs::Sizes::compacted_short))]
pub fn compact<R: Threads + Wait + Sync, S: Source, K: Sink>(
    rt: &R,
    alloc: Global,
    crew: &Crew,
    source: &mut S,
    sink: &mut K,
) -> bool
    requires { IsCrew crew.now }
    ensures passed { result ≡ true → IsPassedOn (S.left source.old) (S.left source.new) (K.written sink.old) (K.written sink.new) }
    ensures unwritten { result ≡ false → (sink.new ≡ sink.old) ⊎ Rose (K.faults sink.old) (K.faults sink.new) }
{
    let Ok(bytes) = read_up_to(alloc, source, MOST) else {
        return false;
    };
    let Ok(out) = compacted(rt, alloc, crew, &bytes) else {
        return false;
    };
    match write_whole(sink, &out) {
        Ok(()) => true,
        Err(_) => false,
    }
}

#[cfg(test)]
mod tests;
