//! Which test of an image failed, and where.
use std::alloc::{AllocError, AllocFailed};

/// Which test of an image failed, in the order of the tests. The first five are of bytes alone.
#[derive(Debug, Clone, Copy, PartialEq, Eq)]
pub enum ImageKind {
    /// Fewer bytes than a header has, or than the header says. The place is how many there are, the
    /// value how many there should be.
    Short,
    /// The first byte that is not that of a magic, with its place.
    Magic,
    /// The header says more heap words than an image may have. The place is 8, the value what it says.
    TooManyWords,
    /// The header says more roots than an image may have. The place is 16, the value what it says.
    TooManyRoots,
    /// More bytes than the header says: the first of them, with its place.
    Long,
    /// An object ends past the last word: its header word, with the number of that word.
    Overrun,
    /// More objects than an image may have: the header word of the first that is too many, with the
    /// number of that word.
    TooManyObjects,
    /// The first reference or weak word that is neither 0 nor names an object, with the number of the
    /// word.
    BadRef,
    /// The first root word that is neither 0 nor names an object, with the number of the root.
    BadRoot,
}

/// The first test that failed, where, and the value there, as its kind says.
#[derive(Debug, Clone, Copy, PartialEq, Eq)]
pub struct ImageFault {
    /// The test that failed.
    pub kind: ImageKind,
    /// Where it failed: the number of a byte, a word or a root, as the kind says.
    pub place: u64,
    /// What stands there, as the kind says.
    pub value: u64,
}

/// Why there is no image.
#[derive(Debug, Drop)]
pub enum ReadImage {
    /// The words or bytes are no image; the first test that they fail.
    Fault(ImageFault),
    /// Memory ran out.
    Memory,
}

impl ImageFault {
    ghost use Rattle.std.specs.Prelude.{◌≡◌, ◌<◌, length, slice_index};

    /// A fault of this kind, at a place, with a value.
    pub fn new(kind: ImageKind, place: u64, value: u64) -> ImageFault
        ensures { result ≡ record { kind = kind; place = place; value = value } }
    {
        ImageFault { kind, place, value }
    }

    /// A fault of a word: its place and the word itself.
    pub(crate) fn of_word(kind: ImageKind, words: &[u64], place: usize) -> ImageFault
        requires { place < length words.now }
        ensures { result ≡ record { kind = kind; place = place; value = slice_index words.now place } }
    {
        ImageFault::new(kind, place as u64, words[place])
    }
}

impl From<ImageFault> for ReadImage {
    ghost use Rattle.std.specs.Prelude.{◌≡◌};
    ghost use Rattle.image_core.specs.declared.fault.ReadImage.TheVariants.{Fault};

    ghost from_gives = { λ fault e. e ≡ Fault fault };

    fn from(fault: ImageFault) -> Self {
        ReadImage::Fault(fault)
    }
}

impl From<AllocError> for ReadImage {
    ghost use Rattle.std.specs.Prelude.{◌≡◌};
    ghost use Rattle.image_core.specs.declared.fault.ReadImage.TheVariants.{Memory};

    ghost from_gives = { λ _ e. e ≡ Memory };

    fn from(_error: AllocError) -> Self {
        ReadImage::Memory
    }
}

impl<T: Drop> From<AllocFailed<T>> for ReadImage {
    ghost use Rattle.std.specs.Prelude.{◌≡◌};
    ghost use Rattle.image_core.specs.declared.fault.ReadImage.TheVariants.{Memory};

    ghost from_gives = { λ _ e. e ≡ Memory };

    fn from(_error: AllocFailed<T>) -> Self {
        ReadImage::Memory
    }
}
