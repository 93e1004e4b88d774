//! One number of an image, for comparing two.
ghost use Rattle.std.specs.Prelude.{◌≡◌};
ghost use Rattle.std.specs.List.{fold};
ghost use Rattle.image_reader.specs.Folding.{with_word, fold_of};

use image_core::Image;

/// The number of an image: from 0 on it is multiplied by 31, and the next word is added, first the
/// heap words and then the roots; what is above 64 bits is dropped. It takes no memory.
pub fn fold(image: &Image) -> u64
    ensures { result ≡ fold_of image.now }
{
    let heap = fold_words(0, image.words());
    fold_words(heap, image.roots())
}

/// A number, and then each of these words.
fn fold_words(number: u64, words: &[u64]) -> u64
    ensures { result ≡ fold with_word number words.now }
{
    let mut folded = number;
    for word in words {
        folded = folded.wrapping_mul(31).wrapping_add(*word);
    }
    folded
}
