//! Each call once, at lengths about those of a word.
ghost use Rattle.std.specs.Prelude.{◌≡◌, length};

use crate::{BitSet, RankedBits};
use std::alloc::AllocError;

// lengths, and the numbers of a set below each
const ROWS: [(usize, &[usize]); 6] = [
    (0, &[]),
    (1, &[0]),
    (63, &[0, 62]),
    (64, &[0, 63]),
    (65, &[63, 64]),
    (130, &[1, 64, 127, 129]),
];

// Puts the numbers into the set that are below its length, and answers how many were new.
fn insert_all(set: &mut BitSet, numbers: &[usize]) -> usize
    ensures { length set.new ≡ length set.old }
{
    let mut fresh = 0usize;
    for number in numbers {
        if *number < set.len() && set.insert(*number) {
            fresh = fresh.saturating_add(1);
        }
    }
    fresh
}

// How many of the numbers are below the place.
fn below(numbers: &[usize], place: usize) -> usize {
    numbers.iter().filter(|number| **number < place).count()
}

#[test]
fn a_set_has_its_numbers(rt: HostRuntime) -> Result<(), AllocError> {
    for (len, numbers) in ROWS {
        let mut set = BitSet::none(rt.alloc(), len)?;
        assert_eq!(rt; insert_all(&mut set, numbers), numbers.len());
        assert_eq!(rt; insert_all(&mut set, numbers), 0);
        assert_eq!(rt; set.len(), len);
        for place in 0..len {
            assert_eq!(rt; set.contains(place), numbers.contains(&place));
        }
        for place in 0..len {
            let next = numbers.iter().copied().find(|number| *number >= place);
            assert_eq!(rt; set.next_from(place), next);
        }
        assert_eq!(rt; set.next_from(len), None);
    }
    Ok(())
}

#[test]
fn a_run_is_put_in_at_once(rt: HostRuntime) -> Result<(), AllocError> {
    for (from, end) in [(0, 0), (0, 64), (63, 65), (1, 130), (64, 129), (130, 130)] {
        let mut set = BitSet::none(rt.alloc(), 130)?;
        if from <= end && end <= set.len() {
            set.insert_run(from, end);
        }
        for place in 0..set.len() {
            assert_eq!(rt; set.contains(place), from <= place && place < end);
        }
    }
    Ok(())
}

#[test]
fn ranks_count_the_numbers_below(rt: HostRuntime) -> Result<(), AllocError> {
    for (len, numbers) in ROWS {
        let mut set = BitSet::none(rt.alloc(), len)?;
        insert_all(&mut set, numbers);
        let ranked = RankedBits::from_bits(rt.alloc(), set)?;
        assert_eq!(rt; ranked.bits().len(), len);
        assert_eq!(rt; ranked.count() as usize, numbers.len());
        assert_eq!(rt; ranked.rank(len) as usize, numbers.len());
        for place in 0..len {
            assert_eq!(rt; ranked.contains(place), numbers.contains(&place));
            assert_eq!(rt; ranked.rank(place) as usize, below(numbers, place));
        }
    }
    Ok(())
}
