//! Worked images of both formats, and the first test that each bad one fails.
ghost use Rattle.std.specs.Prelude.{◌<◌, ◌≤◌, ◌^◌, length};
ghost use Rattle.image_core.specs.Header.{IsFormat};

use crate::{Image, ImageFault, ImageKind, Obj, ReadImage};
use std::alloc::{AllocError, Global};
use std::test::Fail;

// h(1,0,7), a reference to word 4, h(0,1,8), a data word and h(0,0,9).
const WORDS: [u64; 5] = [30064771073, 5, 34359803904, 99, 38654705664];

// In format 2: H(1,0,1,7), a reference to word 5, a weak one to word 3, H(0,1,0,8), a data word,
// H(0,0,1,9) and a weak reference to word 0.
const WEAK_WORDS: [u64; 7] = [
    1970329131941889,
    6,
    4,
    2251799813750784,
    99,
    2533279085363200,
    1,
];

fn image_of(alloc: Global, format: u8, words: &[u64], roots: &[u64]) -> Result<Image, ReadImage>
    requires format { IsFormat format }
    requires words { length words.now ≤ 2 ^ 22 }
    requires roots { length roots.now ≤ 2 ^ 16 }
{
    Image::lawful(alloc, format, words.to_vec(alloc)?, roots.to_vec(alloc)?)
}

fn children(alloc: Global, image: &Image, object: u32) -> Result<Vec<Option<u32>>, AllocError>
    requires { object < length image.now.heads }
{
    let mut found = Vec::new(alloc);
    for k in 0..image.get(object).refs {
        found.push(image.child(object, k))?;
    }
    Ok(found)
}

fn weak_children(alloc: Global, image: &Image, object: u32) -> Result<Vec<Option<u32>>, AllocError>
    requires { object < length image.now.heads }
{
    let mut found = Vec::new(alloc);
    for k in 0..image.get(object).weak {
        found.push(image.weak_child(object, k))?;
    }
    Ok(found)
}

fn named_by_roots(alloc: Global, image: &Image) -> Result<Vec<Option<u32>>, AllocError> {
    let mut found = Vec::new(alloc);
    for j in 0..image.roots().len() as u32 {
        found.push(image.root(j))?;
    }
    Ok(found)
}

#[test]
fn objects_and_what_their_words_name(rt: HostRuntime) -> Result<(), Fail> {
    let alloc = rt.alloc();
    let image = image_of(alloc, 1, &WORDS, &[1, 0])?;
    assert!(rt; image.words().len() == 5);
    assert!(rt; image.objects() == 3 && image.format() == 1);
    let second = Obj {
        at: 2,
        refs: 0,
        weak: 0,
        plain: 1,
        tag: 8,
    };
    assert!(rt; image.get(1) == second);
    let heads = image.heads();
    assert!(rt; heads[0] == 0 && heads[1] == 2 && heads[2] == 4);
    let children = children(alloc, &image, 0)?;
    assert_eq!(rt; children.as_slice(), [Some(2)].as_slice());
    let roots = named_by_roots(alloc, &image)?;
    assert_eq!(rt; roots.as_slice(), [Some(0), None].as_slice());
    Ok(())
}

#[test]
fn weak_words_of_format_2_name_objects_too(rt: HostRuntime) -> Result<(), Fail> {
    let alloc = rt.alloc();
    let image = image_of(alloc, 2, &WEAK_WORDS, &[1])?;
    assert!(rt; image.format() == 2 && image.objects() == 3);
    let first = Obj {
        at: 0,
        refs: 1,
        weak: 1,
        plain: 0,
        tag: 7,
    };
    assert!(rt; image.get(0) == first);
    let heads = image.heads();
    assert!(rt; heads[0] == 0 && heads[1] == 3 && heads[2] == 5);
    let strong = children(alloc, &image, 0)?;
    assert_eq!(rt; strong.as_slice(), [Some(2)].as_slice());
    let weak = weak_children(alloc, &image, 0)?;
    assert_eq!(rt; weak.as_slice(), [Some(1)].as_slice());
    let last = weak_children(alloc, &image, 2)?;
    assert_eq!(rt; last.as_slice(), [Some(0)].as_slice());
    Ok(())
}

#[test]
fn a_weak_word_may_be_null(rt: HostRuntime) -> Result<(), Fail> {
    let alloc = rt.alloc();
    // Of an object that carries the greatest tag.
    let image = image_of(alloc, 2, &[18446462603027808256, 0], &[])?;
    assert!(rt; image.objects() == 1);
    assert!(rt; image.get(0).tag == 65535);
    let none = weak_children(alloc, &image, 0)?;
    assert_eq!(rt; none.as_slice(), [None].as_slice());
    Ok(())
}

#[test]
fn words_that_are_no_image_are_refused(rt: HostRuntime) -> Result<(), Fail> {
    // An object past the end; a reference to a data word, and past the end; a root of a data word. In
    // format 2: a weak word that names its own place, and one past the end.
    let cases: [(u8, &[u64], &[u64], ImageFault); 6] = [
        (1, &[1], &[], ImageFault::new(ImageKind::Overrun, 0, 1)),
        (
            1,
            &[65537, 3, 0],
            &[],
            ImageFault::new(ImageKind::BadRef, 1, 3),
        ),
        (1, &[1, 3], &[], ImageFault::new(ImageKind::BadRef, 1, 3)),
        (
            1,
            &WORDS,
            &[1, 2],
            ImageFault::new(ImageKind::BadRoot, 1, 2),
        ),
        (
            2,
            &[4294967296, 2],
            &[],
            ImageFault::new(ImageKind::BadRef, 1, 2),
        ),
        (
            2,
            &[4294967296],
            &[],
            ImageFault::new(ImageKind::Overrun, 0, 4294967296),
        ),
    ];
    for (format, words, roots, wanted) in cases {
        match image_of(rt.alloc(), format, words, roots) {
            Err(ReadImage::Fault(fault)) => assert_eq!(rt; fault, wanted),
            _ => return Err(Fail::from("not refused")),
        }
    }
    Ok(())
}
