//! A lawful image, and what a caller sees of it.
ghost use Rattle.std.specs.Prelude.{◌≡◌, ◌+◌, ◌<◌, ◌≤◌, ◌^◌, length, slice_index, IfOk, IfErr, MatchResult, vec_len};

use crate::check::headers;
use crate::fault::ReadImage;
use crate::index::HeaderIndex;
use crate::object::{Obj, references, weak_references};
use std::alloc::{AllocError, Global};
use std::marker::Model;

/// A lawful image: its format, its words and roots, and where the headers stand.
#[derive(Drop)]
pub struct Image {
    format: u8,
    words: Vec<u64>,
    roots: Vec<u64>,
    index: HeaderIndex,
}

impl Model for Image {
    ghost use Rattle.image_core.specs.Heap.{Heap, IsLawful};

    ghost Value = { Heap };

    ghost view = { λ i. record { format = i.format; words = i.words.items; roots = i.roots.items; heads = i.index } };

    ghost invariant = { λ i. IsLawful (record { format = i.format; words = i.words.items; roots = i.roots.items; heads = i.index }) };
}

impl Image {
    ghost use Rattle.image_core.specs.Header.{IsFormat};
    ghost use Rattle.image_core.specs.Object.{refs_at, weak_at, references_at, weak_references_at};
    ghost use Rattle.image_core.specs.Heap.{Heap, IsLawful, IsHeapOf, head_of};
    ghost use Rattle.image_core.specs.Fault.{HasFault, OnFault, Tells};
    ghost use Rattle.image_core.specs.Shape.{object_at, Target};
    ghost use Rattle.image_core.specs.declared.fault.ImageFault.{ImageFault};
    ghost use Rattle.image_core.specs.declared.fault.ReadImage.TheVariants.{Memory};

    /// The image of these words and roots in a format, 1 or 2. `Fault` where a test of them fails: the
    /// first, with the number of the word and the word itself. `Memory` where memory runs out.
    pub fn lawful(
        alloc: Global,
        format: u8,
        words: Vec<u64>,
        roots: Vec<u64>,
    ) -> Result<Image, ReadImage>
        requires format { IsFormat format }
        requires words { vec_len words ≤ 2 ^ 22 }
        requires roots { vec_len roots ≤ 2 ^ 16 }
        ensures heap { IfOk result (IsHeapOf format words.items roots.items) }
        ensures fault { IfErr result (λ refusal. OnFault refusal (HasFault format words.items roots.items)) }
        // The lawful heap of these words and roots is found, unless memory runs out.
        ensures found { (heap : Heap) → IsHeapOf format words.items roots.items heap
            → MatchResult result (λ image. image ≡ heap) (λ refusal. refusal ≡ Memory) }
        // And so is their fault, which is the only one.
        ensures told { (fault : ImageFault) → HasFault format words.items roots.items fault
            → MatchResult result (λ _. ⊥) (Tells fault) }
    {
        let index = headers(alloc, format, words.as_slice(), roots.as_slice())?;
        Ok(Image {
            format,
            words,
            roots,
            index,
        })
    }

    /// The image of a heap that is known to be lawful, without a test.
    pub fn from_lawful(
        alloc: Global,
        format: u8,
        words: Vec<u64>,
        roots: Vec<u64>,
        heads: Vec<u32>,
    ) -> Result<Image, AllocError>
        requires { IsLawful (record { format = format; words = words.items; roots = roots.items; heads = heads.items }) }
        ensures { IfOk result (λ image. image
            ≡ record { format = format; words = words.items; roots = roots.items; heads = heads.items }) }
    {
        let index = HeaderIndex::of_heads(alloc, words.as_slice(), heads)?;
        Ok(Image {
            format,
            words,
            roots,
            index,
        })
    }

    /// The format: 1 or 2.
    #[inline]
    pub fn format(&self) -> u8
        ensures format { result ≡ self.now.format }
        ensures lawful { IsLawful self.now }
    {
        self.format
    }

    /// The heap words.
    #[inline]
    pub fn words(&self) -> &[u64]
        ensures words { result.now ≡ self.now.words }
        ensures lawful { IsLawful self.now }
    {
        self.words.as_slice()
    }

    /// The root words.
    #[inline]
    pub fn roots(&self) -> &[u64]
        ensures roots { result.now ≡ self.now.roots }
        ensures lawful { IsLawful self.now }
    {
        self.roots.as_slice()
    }

    /// The places of the headers, in order.
    #[inline]
    pub fn heads(&self) -> &[u32]
        ensures heads { result.now ≡ self.now.heads }
        ensures lawful { IsLawful self.now }
    {
        self.index.heads()
    }

    /// How many objects there are. Their numbers, from 0, are in the order of their headers.
    #[inline]
    pub fn objects(&self) -> u32
        ensures count { result ≡ length self.now.heads }
        ensures lawful { IsLawful self.now }
    {
        self.index.heads().len() as u32
    }

    /// The object of a number.
    #[inline]
    pub fn get(&self, object: u32) -> Obj
        requires { object < length self.now.heads }
        ensures { result ≡ object_at self.now.format self.now.words (head_of self.now object) }
    {
        Obj::read(
            self.format,
            self.words.as_slice(),
            self.index.heads()[object as usize],
        )
    }

    /// The object that reference word `k`, counted from 0, of an object names; none where it is 0.
    #[inline]
    pub fn child(&self, object: u32, k: u32) -> Option<u32>
        requires object { object < length self.now.heads }
        requires reference { k < refs_at self.now.words (head_of self.now object) }
        ensures { Target self.now.heads (slice_index (references_at self.now.words (head_of self.now object)) k) result }
    {
        let head = self.index.heads()[object as usize];
        let words = references(self.words.as_slice(), head as usize);
        self.index.target(words[k as usize])
    }

    /// The object that weak word `k`, counted from 0, of an object names; none where it is 0.
    #[inline]
    pub fn weak_child(&self, object: u32, k: u32) -> Option<u32>
        requires object { object < length self.now.heads }
        requires weak { k < weak_at self.now.format self.now.words (head_of self.now object) }
        ensures { Target self.now.heads (slice_index (weak_references_at self.now.format self.now.words (head_of self.now object)) k) result }
    {
        let head = self.index.heads()[object as usize];
        let weak = weak_references(self.format, self.words.as_slice(), head as usize);
        self.index.target(weak[k as usize])
    }

    /// The object that root `j`, counted from 0, names; none where it is 0.
    #[inline]
    pub fn root(&self, j: u32) -> Option<u32>
        requires { j < length self.now.roots }
        ensures { Target self.now.heads (slice_index self.now.roots j) result }
    {
        self.index.target(self.roots[j as usize])
    }
}
