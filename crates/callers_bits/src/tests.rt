//! The marks of five objects.
use crate::counted;
use std::alloc::AllocError;

#[test]
fn a_place_has_the_marks_before_it(rt: HostRuntime) -> Result<(), AllocError> {
    let set = counted(rt.alloc(), &[true, false, true, true, false])?;
    let ranks = [0u32, 1, 1, 2, 3, 3];
    for (place, rank) in ranks.iter().enumerate() {
        if place <= set.bits().len() {
            assert_eq!(rt; set.rank(place), *rank);
        }
    }
    assert_eq!(rt; set.bits().len(), 5);
    assert_eq!(rt; set.count(), 3);
    Ok(())
}
