//! Each fault at its edges. The places and values are worked out by hand from the order of the tests.
use crate::read_image;
use crate::tests::with_magic;
use image_core::ImageKind::{
    BadRef, BadRoot, Long, Magic, Overrun, Short, TooManyObjects, TooManyRoots, TooManyWords,
};
use image_core::{ImageFault, ImageKind, ReadImage};
use std::alloc::{AllocError, Global};
use std::test::Fail;

/// A kind of fault, its place and its value.
type Told = (ImageKind, u64, u64);

/// The magic of format 1, and then these numbers.
fn bytes_of(alloc: Global, numbers: &[u64]) -> Result<Vec<u8>, AllocError> {
    with_magic(alloc, b"ROOMIMG1", numbers)
}

/// Whether reading these bytes tells this fault.
fn tells(alloc: Global, bytes: &[u8], told: Told) -> bool {
    match read_image(alloc, bytes) {
        Err(ReadImage::Fault(fault)) => fault == ImageFault::new(told.0, told.1, told.2),
        _ => false,
    }
}

#[test]
fn faults_of_the_header_and_the_length(rt: HostRuntime) -> Result<(), Fail> {
    let cases: [(&[u8], Told); 22] = [
        (b"", (Short, 0, 24)),
        (b"R", (Short, 1, 24)),
        (b"ROOMIMG1\0\0\0\0\0\0\0\0\0\0\0\0\0\0\0", (Short, 23, 24)),
        // Too short, and another magic.
        (b"\0OOMIMG1\0\0\0\0\0\0\0\0\0\0\0\0\0\0\0", (Short, 23, 24)),
        (b"\0OOMIMG1\0\0\0\0\0\0\0\0\0\0\0\0\0\0\0\0", (Magic, 0, 0)),
        (
            b"\xffOOMIMG1\0\0\0\0\0\0\0\0\0\0\0\0\0\0\0\0",
            (Magic, 0, 255),
        ),
        (b"QOOMIMG1\0\0\0\0\0\0\0\0\0\0\0\0\0\0\0\0", (Magic, 0, 81)),
        (b"ROOMIMG\0\0\0\0\0\0\0\0\0\0\0\0\0\0\0\0\0", (Magic, 7, 0)),
        (b"ROOMIMG0\0\0\0\0\0\0\0\0\0\0\0\0\0\0\0\0", (Magic, 7, 48)),
        (b"ROOMIMG3\0\0\0\0\0\0\0\0\0\0\0\0\0\0\0\0", (Magic, 7, 51)),
        (
            b"ROOMIMG\xff\0\0\0\0\0\0\0\0\0\0\0\0\0\0\0\0",
            (Magic, 7, 255),
        ),
        // Two bytes of the magic are wrong.
        (b"ROOmImG1\0\0\0\0\0\0\0\0\0\0\0\0\0\0\0\0", (Magic, 3, 109)),
        // Another magic, and too many words.
        (
            b"ROOMIMg1\xff\xff\xff\xff\xff\xff\xff\xff\0\0\0\0\0\0\0\0",
            (Magic, 6, 103),
        ),
        // Another magic, and a byte too many.
        (
            b"ROOMIM\0\0\0\0\0\0\0\0\0\0\0\0\0\0\0\0\0\0\0",
            (Magic, 6, 0),
        ),
        // One word or one root is said, and bytes are missing.
        (
            b"ROOMIMG1\x01\0\0\0\0\0\0\0\0\0\0\0\0\0\0\0",
            (Short, 24, 32),
        ),
        (
            b"ROOMIMG1\x01\0\0\0\0\0\0\0\0\0\0\0\0\0\0\0\0\0\0\0\0\0\0",
            (Short, 31, 32),
        ),
        (
            b"ROOMIMG1\0\0\0\0\0\0\0\0\x01\0\0\0\0\0\0\0\0\0\0\0\0\0\0",
            (Short, 31, 32),
        ),
        (b"ROOMIMG1\0\0\0\0\0\0\0\0\0\0\0\0\0\0\0\0\0", (Long, 24, 0)),
        (
            b"ROOMIMG1\0\0\0\0\0\0\0\0\0\0\0\0\0\0\0\0\xff",
            (Long, 24, 255),
        ),
        // The first of two bytes too many is told.
        (
            b"ROOMIMG1\0\0\0\0\0\0\0\0\0\0\0\0\0\0\0\0\x07\x09",
            (Long, 24, 7),
        ),
        (
            b"ROOMIMG1\x01\0\0\0\0\0\0\0\0\0\0\0\0\0\0\0\0\0\0\0\0\0\0\0\x05",
            (Long, 32, 5),
        ),
        // A byte too many, and an object that overruns.
        (
            b"ROOMIMG1\x01\0\0\0\0\0\0\0\0\0\0\0\0\0\0\0\x01\0\0\0\0\0\0\0\x09",
            (Long, 32, 9),
        ),
    ];
    for (bytes, told) in cases {
        assert!(rt; tells(rt.alloc(), bytes, told));
    }
    Ok(())
}

#[test]
fn faults_of_the_counts(rt: HostRuntime) -> Result<(), Fail> {
    let cases: [(&[u64], Told); 9] = [
        (&[4194305, 0], (TooManyWords, 8, 4194305)),
        (&[u64::MAX, 0], (TooManyWords, 8, u64::MAX)),
        (&[0, 65537], (TooManyRoots, 16, 65537)),
        (&[0, u64::MAX], (TooManyRoots, 16, u64::MAX)),
        // Too many of both.
        (&[4194305, 65537], (TooManyWords, 8, 4194305)),
        // Too many roots, and bytes are missing; too many, and there are more than the words.
        (&[1, 65537], (TooManyRoots, 16, 65537)),
        (&[0, 65537, 5], (TooManyRoots, 16, 65537)),
        // As many as may be, and bytes are missing: 24 + 8 * (4194304 + 65536).
        (&[4194304, 65536], (Short, 24, 34078744)),
        // A word is missing, and the one that is there overruns.
        (&[2, 0, 3], (Short, 32, 40)),
    ];
    for (numbers, told) in cases {
        assert!(rt; tells(rt.alloc(), &bytes_of(rt.alloc(), numbers)?, told));
    }
    Ok(())
}

#[test]
fn faults_of_words_and_roots(rt: HostRuntime) -> Result<(), Fail> {
    let cases: [(&[u64], Told); 22] = [
        // Headers are 1 for one reference, 65536 for one data word, 2 and 131072 for two.
        (&[1, 0, 1], (Overrun, 0, 1)),
        (&[1, 0, 65536], (Overrun, 0, 65536)),
        (&[1, 0, u64::MAX], (Overrun, 0, u64::MAX)),
        (&[2, 0, 0, 1], (Overrun, 1, 1)),
        (&[2, 0, 131072, 0], (Overrun, 0, 131072)),
        // A reference that names nothing, or a root, and an object behind it that overruns.
        (&[3, 0, 1, 9, 2], (Overrun, 2, 2)),
        (&[1, 1, 1, 7], (Overrun, 0, 1)),
        // A reference to the reference word, to the place behind the last word, and the greatest.
        (&[2, 0, 1, 2], (BadRef, 1, 2)),
        (&[2, 0, 1, 3], (BadRef, 1, 3)),
        (&[2, 0, 1, u64::MAX], (BadRef, 1, u64::MAX)),
        // A reference to a data word, and the first of two that name nothing.
        (&[3, 0, 65537, 3, 0], (BadRef, 1, 3)),
        (&[3, 0, 2, 4, 5], (BadRef, 1, 4)),
        // The last word of all is the one that names nothing; a data word is not looked at.
        (&[4, 0, 0, 2, 1, 9], (BadRef, 3, 9)),
        (&[5, 0, 65537, 0, 9, 1, 5], (BadRef, 4, 5)),
        // A reference and a root that name nothing.
        (&[2, 1, 1, 5, 6], (BadRef, 1, 5)),
        (&[1, 1, 0, 2], (BadRoot, 0, 2)),
        (&[0, 1, 1], (BadRoot, 0, 1)),
        (&[0, 1, u64::MAX], (BadRoot, 0, u64::MAX)),
        // The last root, the first of two, and a root that names a reference word.
        (&[1, 3, 0, 1, 0, 2], (BadRoot, 2, 2)),
        (&[1, 2, 0, 3, 4], (BadRoot, 0, 3)),
        (&[2, 1, 1, 1, 2], (BadRoot, 0, 2)),
        (&[2, 2, 65536, 7, 1, 2], (BadRoot, 1, 2)),
    ];
    for (numbers, told) in cases {
        assert!(rt; tells(rt.alloc(), &bytes_of(rt.alloc(), numbers)?, told));
    }
    Ok(())
}

#[test]
fn faults_of_weak_words(rt: HostRuntime) -> Result<(), Fail> {
    // Headers are 2^32 for one weak word, 2^32 + 1 for a reference and a weak word, 2^32 + 2^16 for a
    // weak word and a data word.
    let cases: [(&[u64], Told); 8] = [
        // A weak word that would name a header at its own place.
        (&[2, 0, 4294967296, 2], (BadRef, 1, 2)),
        // The weak word is missing, and so is the data word behind one.
        (&[1, 0, 4294967296], (Overrun, 0, 4294967296)),
        (&[2, 0, 4295032832, 0], (Overrun, 0, 4295032832)),
        // A reference and a weak word that name nothing, and a weak one alone.
        (&[3, 0, 4294967297, 2, 3], (BadRef, 1, 2)),
        (&[3, 0, 4294967297, 1, 3], (BadRef, 2, 3)),
        // A data word behind a weak one is not looked at.
        (&[4, 0, 4295032832, 1, 9, 1], (Overrun, 3, 1)),
        (&[5, 0, 4295032832, 1, 9, 1, 5], (BadRef, 4, 5)),
        // A root that names a weak word.
        (&[2, 1, 4294967296, 1, 2], (BadRoot, 0, 2)),
    ];
    for (numbers, told) in cases {
        let bytes = with_magic(rt.alloc(), b"ROOMIMG2", numbers)?;
        assert!(rt; tells(rt.alloc(), &bytes, told));
    }
    Ok(())
}

/// How many words there are, no roots, and these first words; zeros up to the last word.
fn many(alloc: Global, count: usize, first: &[u64], last: u64) -> Result<Vec<u8>, AllocError> {
    let mut numbers = Vec::new(alloc);
    numbers.push(count as u64)?;
    numbers.push(0)?;
    for word in first {
        numbers.push(*word)?;
    }
    for _ in first.len() + 1..count {
        numbers.push(0)?;
    }
    numbers.push(last)?;
    bytes_of(alloc, &numbers)
}

#[test]
fn faults_of_too_many_objects(rt: HostRuntime) -> Result<(), Fail> {
    let alloc = rt.alloc();
    // 2^20 objects of one word are an image; one more is not, and its header word is told.
    let most = many(alloc, 1048576, &[], 30064771072)?;
    assert!(rt; read_image(alloc, &most).is_ok());
    let more = many(alloc, 1048577, &[], 30064771072)?;
    assert!(rt; tells(alloc, &more, (TooManyObjects, 1048576, 30064771072)));
    let still_more = many(alloc, 1048578, &[], 30064771072)?;
    assert!(rt; tells(alloc, &still_more, (TooManyObjects, 1048576, 0)));
    // An object behind those that are too many overruns.
    let overrun = many(alloc, 1048578, &[], 1)?;
    assert!(rt; tells(alloc, &overrun, (Overrun, 1048577, 1)));
    // The first object has a reference that names nothing, and there are too many objects.
    let bad = many(alloc, 1048578, &[1, 9], 12884901888)?;
    assert!(rt; tells(alloc, &bad, (TooManyObjects, 1048577, 12884901888)));
    Ok(())
}
