//! Images of three objects, one of them dead, from a source in memory to a sink in memory.
use crate::compact;
use bay_core::Layout;
use room_io::{MemSink, MemSource};
use std::alloc::{AllocError, Global};
use work_pool::Crew;

/// A magic, and then the bytes of these numbers.
fn framed(alloc: Global, magic: &[u8], numbers: &[u64]) -> Result<Vec<u8>, AllocError> {
    let mut bytes = Vec::from_slice(alloc, magic)?;
    for number in numbers {
        bytes.extend_from_slice(&number.to_le_bytes())?;
    }
    Ok(bytes)
}

#[test]
fn the_dead_object_goes(rt: HostRuntime) -> Result<(), AllocError> {
    let alloc = rt.alloc();
    let cases: [(&[u8], &[u64], &[u64]); 2] = [
        (
            b"ROOMIMG1",
            &[5, 1, 30064771073, 5, 34359803904, 99, 38654705664, 1],
            &[3, 1, 30064771073, 3, 38654705664, 1],
        ),
        // the third object is named by a reference and the second by a weak word
        (
            b"ROOMIMG2",
            &[
                7,
                1,
                1970329131941889,
                6,
                4,
                2251799813750784,
                99,
                2533279085363200,
                1,
                1,
            ],
            &[5, 1, 1970329131941889, 4, 0, 2533279085363200, 1, 1],
        ),
    ];
    let crew = Crew {
        workers: 2,
        blocks: 1,
        layout: Layout::Split,
        draws: 1_048_576,
    };
    for (magic, input, output) in cases {
        let bytes = framed(alloc, magic, input)?;
        let mut source = MemSource::new(bytes, Vec::new(alloc), 7);
        let mut sink = MemSink::new(alloc, 100, Vec::new(alloc), 9)?;
        assert!(rt; compact(&rt, alloc, &crew, &mut source, &mut sink));
        assert_eq!(rt; sink.written(), framed(alloc, magic, output)?.as_slice());
        assert!(rt; source.left().is_empty());
    }
    Ok(())
}
