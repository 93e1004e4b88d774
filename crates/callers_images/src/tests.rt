//! An image of one object, and bytes that are none.
use crate::written_again;
use image_core::{ImageKind, ReadImage};
use std::test::Fail;

#[test]
fn an_image_comes_back(rt: HostRuntime) -> Result<(), Fail> {
    let mut bytes = Vec::from_slice(rt.alloc(), b"ROOMIMG1")?;
    for number in [1u64, 1, 38654705664, 1] {
        bytes.extend_from_slice(&number.to_le_bytes())?;
    }
    match written_again(rt.alloc(), &bytes) {
        Ok(written) => assert_eq!(rt; written.as_slice(), bytes.as_slice()),
        Err(_) => assert!(rt; false),
    }
    match written_again(rt.alloc(), b"ROOMIMG1") {
        Err(ReadImage::Fault(fault)) => {
            assert!(rt; fault.kind == ImageKind::Short);
            assert_eq!(rt; (fault.place, fault.value), (8, 24));
        }
        _ => assert!(rt; false),
    }
    Ok(())
}
