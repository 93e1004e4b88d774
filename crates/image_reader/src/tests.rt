//! Worked images as bytes, read, written and made up.
use crate::{fold, into_image, make_image, read_image, write_image};
use image_core::{ImageFault, ImageKind, ReadImage};
use std::alloc::{AllocError, Global};
use std::test::Fail;

/// This magic, and then these numbers.
pub fn with_magic(alloc: Global, magic: &[u8], numbers: &[u64]) -> Result<Vec<u8>, AllocError> {
    let mut bytes = Vec::from_slice(alloc, magic)?;
    for number in numbers {
        bytes.extend_from_slice(&number.to_le_bytes())?;
    }
    Ok(bytes)
}

#[test]
fn an_image_is_read_and_written_again(rt: HostRuntime) -> Result<(), Fail> {
    let alloc = rt.alloc();
    let numbers = [5, 1, 30064771073, 5, 34359803904, 99, 38654705664, 1];
    let bytes = with_magic(alloc, b"ROOMIMG1", &numbers)?;
    match read_image(alloc, &bytes) {
        Ok(image) => {
            assert_eq!(rt; image.objects(), 3);
            assert_eq!(rt;
                image.words(),
                [30064771073, 5, 34359803904, 99, 38654705664].as_slice()
            );
            assert_eq!(rt; write_image(alloc, &image)?.as_slice(), bytes.as_slice());
        }
        Err(_) => assert!(rt; false),
    }
    Ok(())
}

#[test]
fn an_image_is_written_in_its_format(rt: HostRuntime) -> Result<(), Fail> {
    let alloc = rt.alloc();
    // H(1,0,1,7), 6, 4, H(0,1,0,8), 99, H(0,0,1,9), 1, and the root 1.
    let numbers = [
        7,
        1,
        1970329131941889,
        6,
        4,
        2251799813750784,
        99,
        2533279085363200,
        1,
        1,
    ];
    let bytes = with_magic(alloc, b"ROOMIMG2", &numbers)?;
    match read_image(alloc, &bytes) {
        Ok(image) => {
            assert!(rt; image.format() == 2 && image.objects() == 3);
            assert_eq!(rt; write_image(alloc, &image)?.as_slice(), bytes.as_slice());
        }
        Err(_) => assert!(rt; false),
    }
    // The same words are no image of format 1: the second header is then 4, at word 2, and the
    // reference 6 names none.
    match read_image(alloc, &with_magic(alloc, b"ROOMIMG1", &numbers)?) {
        Err(ReadImage::Fault(fault)) => {
            assert_eq!(rt; fault, ImageFault::new(ImageKind::BadRef, 1, 6));
        }
        _ => assert!(rt; false),
    }
    Ok(())
}

#[test]
fn images_are_made_up(rt: HostRuntime) -> Result<(), Fail> {
    let alloc = rt.alloc();
    let one = make_image(alloc, 1, 1)?;
    assert_eq!(rt; one.words(), [65538, 1, 1, 4483995].as_slice());
    assert_eq!(rt; one.roots(), [1].as_slice());
    assert!(rt; one.format() == 1);
    let none = make_image(alloc, 0, 7)?;
    assert!(rt; none.words().is_empty() && none.roots().is_empty());
    // Objects, a seed and the number of the image.
    let cases: [(u32, u64, u64); 4] = [
        (0, 7, 0),
        (1, 1, 60664753896),
        (3, 5, 6779632402204743997),
        (20, u64::MAX, 3109964664959464589),
    ];
    for (objects, seed, number) in cases {
        assert_eq!(rt; fold(&make_image(alloc, objects, seed)?), number);
    }
    Ok(())
}

#[test]
fn an_image_that_is_made_up_is_read_again(rt: HostRuntime) -> Result<(), Fail> {
    let alloc = rt.alloc();
    let image = make_image(alloc, 3, 5)?;
    match into_image(alloc, write_image(alloc, &image)?) {
        Ok(again) => {
            assert_eq!(rt; again.words(), image.words());
            assert_eq!(rt; again.roots(), image.roots());
        }
        Err(_) => assert!(rt; false),
    }
    Ok(())
}
