//! Whole runs of the program over devices in memory.
use crate::{Status, run};
use image_core::{ImageFault, ImageKind};
use room_core::Refused;
use room_io::{MemSink, MemSource};
use std::alloc::{AllocError, Global};
use std::process::Abort;
use std::sync::Wait;
use std::test::Fail;
use std::thread::Threads;
use work_pool::{Gate, OpenGate};

mod checks;
mod compacts;
mod hostile;
mod large;
mod makes;
mod marks;
mod schedules;
mod trials;

/// The bytes of an image of format 1: its magic, and then these numbers.
fn image(alloc: Global, numbers: &[u64]) -> Result<Vec<u8>, AllocError> {
    framed(alloc, b"ROOMIMG1", numbers)
}

/// A magic, and then the bytes of these numbers.
fn framed(alloc: Global, magic: &[u8], numbers: &[u64]) -> Result<Vec<u8>, AllocError> {
    let mut bytes = Vec::from_slice(alloc, magic)?;
    for number in numbers {
        bytes.extend_from_slice(&number.to_le_bytes())?;
    }
    Ok(bytes)
}

/// How a run ended, and what it left.
#[derive(Drop)]
struct Ended {
    status: Status,
    sink: MemSink,
    notes: MemSink,
    source: MemSource,
}

impl Ended {
    /// A run to come by its own call, on this input and on devices that do not fail.
    fn before(alloc: Global, input: &[u8]) -> Result<Ended, AllocError> {
        Ok(Ended {
            status: Status::Good,
            sink: MemSink::new(alloc, 1000, Vec::new(alloc), 24)?,
            notes: MemSink::new(alloc, 100, Vec::new(alloc), 7)?,
            source: MemSource::new(Vec::from_slice(alloc, input)?, Vec::new(alloc), 1000),
        })
    }

    /// Fails unless it ended well, wrote just this, and left no note.
    fn gave<R: Abort>(&self, rt: &R, output: &[u8]) {
        assert_eq!(rt; self.status, Status::Good);
        assert_eq!(rt; self.sink.written(), output);
        assert!(rt; self.notes.written().is_empty());
    }

    /// Fails unless it was refused so, wrote nothing, and left this note.
    fn refused<R: Abort>(&self, rt: &R, status: Status, note: &str) {
        assert_eq!(rt; self.status, status);
        assert!(rt; self.sink.written().is_empty());
        assert_eq!(rt; self.notes.written(), note.as_bytes());
    }
}

/// A run to come: its words and its input, how many bytes its sink takes, and the calls of its devices
/// that fail.
#[derive(Drop)]
struct Attempt<'a> {
    words: &'a [&'a str],
    input: &'a [u8],
    room: usize,
    failing_read: Option<u64>,
    failing_write: Option<u64>,
}

impl<'a> Attempt<'a> {
    /// A run on devices that do not fail.
    fn new(words: &'a [&'a str], input: &'a [u8]) -> Attempt<'a> {
        Attempt {
            words,
            input,
            room: 1000,
            failing_read: None,
            failing_write: None,
        }
    }

    /// Runs it under a gate.
    fn under<R: Threads + Wait + Sync, G: Gate + Sync>(
        &self,
        rt: &R,
        alloc: Global,
        gate: &G,
    ) -> Result<Ended, AllocError> {
        let words = spelled(alloc, self.words)?;
        let input = Vec::from_slice(alloc, self.input)?;
        let mut source = MemSource::new(input, calls(alloc, self.failing_read)?, 1000);
        let mut sink = MemSink::new(alloc, self.room, calls(alloc, self.failing_write)?, 24)?;
        let mut notes = MemSink::new(alloc, 100, Vec::new(alloc), 7)?;
        let status = run(rt, alloc, &words, &mut source, &mut sink, &mut notes, gate);
        Ok(Ended {
            status,
            sink,
            notes,
            source,
        })
    }

    /// Runs it with nobody held.
    fn ended<R: Threads + Wait + Sync>(&self, rt: &R, alloc: Global) -> Result<Ended, AllocError> {
        self.under(rt, alloc, &OpenGate)
    }
}

/// The words of a command line.
fn spelled(alloc: Global, words: &[&str]) -> Result<Vec<String>, AllocError> {
    let mut all = Vec::new(alloc);
    for word in words {
        all.push(String::from_str(alloc, word)?)?;
    }
    Ok(all)
}

/// The calls of a device that fail: one, or none.
fn calls(alloc: Global, failing: Option<u64>) -> Result<Vec<u64>, AllocError> {
    let mut all = Vec::new(alloc);
    if let Some(call) = failing {
        all.push(call)?;
    }
    Ok(all)
}

const FIVE_WORDS: [u64; 8] = [5, 1, 30064771073, 5, 34359803904, 99, 38654705664, 1];

/// An image of format 2: the object at 0 has a reference to that at 5 and a weak word that names that at 3,
/// and the object at 5 a weak word that names that at 0. The root names the object at 0.
const WEAK_WORDS: [u64; 10] = [
    7,
    1,
    1970329131941889,
    6,
    4,
    2251799813750784,
    99,
    2533279085363200,
    1,
    1,
];

/// An image of format 2 of one object, with a weak word that names itself, and a root that is null.
const WEAK_ITSELF: [u64; 5] = [2, 1, 281479271677952, 1, 0];

const ONE_OBJECT: [u64; 7] = [4, 1, 65538, 1, 1, 4483995, 1];

/// Whether one of the lines of the text is this.
fn has_line(text: &[u8], line: &[u8]) -> bool {
    text.split(|byte| *byte == b'\n').any(|other| other == line)
}

#[test]
fn other_words_are_refused_and_nothing_is_read(rt: HostRuntime) -> Result<(), Fail> {
    let alloc = rt.alloc();
    let bytes = image(alloc, &FIVE_WORDS)?;
    let cases: [&[&str]; 18] = [
        &[],
        &["--help"],
        &["schedul"],
        &["trial", "1"],
        &["schedule", "--workers", "2"],
        &["check", "--workers", "1"],
        &["mark", "5"],
        &["make"],
        &["make", "1048577", "0"],
        &["compact", "extra"],
        &["compact", "--workers"],
        &["compact", "--workers="],
        &["compact", "--workers", "0"],
        &["compact", "--workers", "02"],
        &["compact", "--workers", "17"],
        &["compact", "--blocks", "16385"],
        &["compact", "--layout", "paged", "--blocks", "1"],
        &["compact", "--workers", "2", "--workers", "2"],
    ];
    for words in cases {
        let ended = Attempt::new(words, &bytes).ended(&rt, alloc)?;
        assert_eq!(rt; ended.status, Status::Words);
        assert_eq!(rt; ended.source.left().len(), 72);
        assert!(rt; ended.sink.written().is_empty());
        assert_eq!(rt; ended.notes.written(), b"words\n".as_slice());
    }
    Ok(())
}

#[test]
fn each_status_has_its_number(rt: HostRuntime) -> Result<(), Fail> {
    let fault = ImageFault::new(ImageKind::Short, 23, 24);
    let cases = [
        (Status::Good, 0),
        (Status::Words, 2),
        (Status::Image(fault), 3),
        (Status::ReadFault, 4),
        (Status::WriteFault, 5),
        (Status::Script(1), 6),
        (Status::Act(1, Refused::Stuck), 7),
        (Status::TooLong, 8),
        (Status::Memory, 9),
    ];
    for (status, number) in cases {
        assert_eq!(rt; status.code(), number);
    }
    Ok(())
}
