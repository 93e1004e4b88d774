//! One object of an image.
ghost use Rattle.std.specs.Prelude.{◌≡◌, ◌+◌, ◌<◌, length, slice_index};
ghost use Rattle.image_core.specs.Object.{Fits, refs_at, references_at, weak_references_at, naming_at, data_at};

use crate::header::{names, plain, refs, size, tag, weak};

/// An object: where its header stands, how many reference, weak and data words follow, and its tag.
#[derive(Debug, Clone, Copy, PartialEq, Eq)]
pub struct Obj {
    /// The number of its header word, below 2^22.
    pub at: u32,
    /// How many reference words follow the header, below 2^16.
    pub refs: u32,
    /// How many weak words follow those, below 2^16; none in format 1.
    pub weak: u32,
    /// How many data words follow those, below 2^16.
    pub plain: u32,
    /// The tag: 32 bits in format 1, 16 in format 2.
    pub tag: u32,
}

impl Obj {
    ghost use Rattle.image_core.specs.Shape.{object_at};

    /// The object of a format whose header stands at a place.
    #[inline(always)]
    pub(crate) fn read(format: u8, words: &[u64], head: u32) -> Obj
        requires { head < length words.now }
        ensures { result ≡ object_at format words.now head }
    {
        let header = words[head as usize];
        Obj {
            at: head,
            refs: refs(header),
            weak: weak(format, header),
            plain: plain(header),
            tag: tag(format, header),
        }
    }
}

/// The reference words of the object whose header stands at a place.
#[inline(always)]
pub fn references(words: &[u64], head: usize) -> &[u64]
    requires { head + refs_at words.now head < length words.now }
    ensures { result.now ≡ references_at words.now head }
{
    let from = head + 1;
    &words[from..from + refs(words[head]) as usize]
}

/// The weak words of the object whose header stands at a place.
#[inline(always)]
pub fn weak_references(format: u8, words: &[u64], head: usize) -> &[u64]
    requires { Fits format words.now head }
    ensures { result.now ≡ weak_references_at format words.now head }
{
    let header = words[head];
    &words[head + 1 + refs(header) as usize..head + 1 + names(format, header)]
}

/// The words that name objects of the object whose header stands at a place: its references, and then
/// its weak ones.
#[inline(always)]
pub fn naming(format: u8, words: &[u64], head: usize) -> &[u64]
    requires { Fits format words.now head }
    ensures { result.now ≡ naming_at format words.now head }
{
    let from = head + 1;
    &words[from..from + names(format, words[head])]
}

/// The data words of the object whose header stands at a place.
#[inline(always)]
pub fn data(format: u8, words: &[u64], head: usize) -> &[u64]
    requires { Fits format words.now head }
    ensures { result.now ≡ data_at format words.now head }
{
    let header = words[head];
    &words[head + 1 + names(format, header)..head + size(format, header)]
}
