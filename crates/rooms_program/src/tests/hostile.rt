//! Devices that fail, input without end, and bytes that are made to do harm.
ghost use Rattle.std.specs.Prelude.{None};

use super::{Attempt, Ended, FIVE_WORDS, calls, image, spelled};
use crate::{Status, run};
use image_core::{ImageFault, ImageKind};
use room_core::Refused;
use room_io::{Failed, MemSink, MemSource, Sink, Source};
use std::alloc::{AllocError, Global};
use std::sync::Wait;
use std::test::Fail;
use std::thread::Threads;
use work_pool::OpenGate;

/// How a run of these words ends on these devices.
fn status_on<R: Threads + Wait + Sync, S: Source, K: Sink, N: Sink>(
    rt: &R,
    alloc: Global,
    words: &[&str],
    source: &mut S,
    sink: &mut K,
    notes: &mut N,
) -> Result<Status, AllocError> {
    let words = spelled(alloc, words)?;
    Ok(run(rt, alloc, &words, source, sink, notes, &OpenGate))
}

/// For each of three devices its call that fails, if one does.
#[derive(Clone, Copy)]
struct Failing {
    read: Option<u64>,
    write: Option<u64>,
    note: Option<u64>,
}

const NO_CALL: Failing = Failing {
    read: None,
    write: None,
    note: None,
};

/// How a run ends whose devices give and take a byte a call.
fn byte_by_byte<R: Threads + Wait + Sync>(
    rt: &R,
    alloc: Global,
    words: &[&str],
    input: &[u8],
    failing: Failing,
) -> Result<Ended, AllocError> {
    let input = Vec::from_slice(alloc, input)?;
    let mut source = MemSource::new(input, calls(alloc, failing.read)?, 1);
    let mut sink = MemSink::new(alloc, 100, calls(alloc, failing.write)?, 1)?;
    let mut notes = MemSink::new(alloc, 100, calls(alloc, failing.note)?, 1)?;
    let status = status_on(rt, alloc, words, &mut source, &mut sink, &mut notes)?;
    Ok(Ended {
        status,
        sink,
        notes,
        source,
    })
}

/// The slide of `FIVE_WORDS`.
const THREE_WORDS: [u64; 6] = [3, 1, 30064771073, 3, 38654705664, 1];

#[test]
fn each_read_that_fails_is_told(rt: HostRuntime) -> Result<(), Fail> {
    let alloc = rt.alloc();
    let input = image(alloc, &FIVE_WORDS)?;
    let output = image(alloc, &THREE_WORDS)?;
    // 72 reads give a byte, and one more finds the end
    for call in 0..74 {
        let mut failing = NO_CALL;
        failing.read = Some(call);
        let ended = byte_by_byte(&rt, alloc, &["compact"], &input, failing)?;
        if call < 73 {
            ended.refused(&rt, Status::ReadFault, "read fault\n");
        } else {
            ended.gave(&rt, output.as_slice());
        }
    }
    Ok(())
}

#[test]
fn each_write_that_fails_leaves_what_was_written(rt: HostRuntime) -> Result<(), Fail> {
    let alloc = rt.alloc();
    let input = image(alloc, &FIVE_WORDS)?;
    let output = image(alloc, &THREE_WORDS)?;
    assert_eq!(rt; output.len(), 56);
    for call in 0..output.len() {
        let mut failing = NO_CALL;
        failing.write = Some(call as u64);
        let ended = byte_by_byte(&rt, alloc, &["compact"], &input, failing)?;
        assert_eq!(rt; ended.status, Status::WriteFault);
        assert_eq!(rt; ended.sink.written(), &output[..call]);
        assert_eq!(rt; ended.notes.written(), b"write fault\n".as_slice());
    }
    let mut failing = NO_CALL;
    failing.write = Some(56);
    let ended = byte_by_byte(&rt, alloc, &["compact"], &input, failing)?;
    ended.gave(&rt, output.as_slice());
    Ok(())
}

#[test]
fn notes_that_fail_at_any_byte_keep_the_status(rt: HostRuntime) -> Result<(), Fail> {
    let alloc = rt.alloc();
    let mut reading = NO_CALL;
    reading.read = Some(0);
    let mut writing = NO_CALL;
    writing.write = Some(0);
    let cases = [
        ("--help", "", NO_CALL, Status::Words, "words\n"),
        (
            "check",
            "ROOM",
            NO_CALL,
            Status::Image(ImageFault::new(ImageKind::Short, 4, 24)),
            "image Short place 4 value 24\n",
        ),
        ("check", "", reading, Status::ReadFault, "read fault\n"),
        (
            "schedule",
            "schedule 1\nrooms 1\ncallers 1\n",
            writing,
            Status::WriteFault,
            "write fault\n",
        ),
        (
            "trial",
            "trial 1\n",
            NO_CALL,
            Status::Script(2),
            "script line 2\n",
        ),
        (
            "schedule",
            "schedule 1\nrooms 1\ncallers 1\nleave 0\n",
            NO_CALL,
            Status::Act(1, Refused::NotIn),
            "act 1 NotIn\n",
        ),
    ];
    for (word, input, failing, status, note) in cases {
        for call in 0..note.len() + 1 {
            let mut failing = failing;
            failing.note = Some(call as u64);
            let ended = byte_by_byte(&rt, alloc, &[word], input.as_bytes(), failing)?;
            assert_eq!(rt; ended.status, status);
            assert!(rt; ended.sink.written().is_empty());
            assert_eq!(rt; ended.notes.written(), &note.as_bytes()[..call]);
        }
    }
    Ok(())
}

#[test]
fn each_beginning_of_an_image_is_short(rt: HostRuntime) -> Result<(), Fail> {
    let alloc = rt.alloc();
    let bytes = image(alloc, &FIVE_WORDS)?;
    assert_eq!(rt; bytes.len(), 72);
    for len in 0..bytes.len() {
        let wanted = if len < 24 { 24 } else { 72 };
        let fault = ImageFault::new(ImageKind::Short, len as u64, wanted);
        for word in ["compact", "mark", "check"] {
            let ended = byte_by_byte(&rt, alloc, &[word], &bytes[..len], NO_CALL)?;
            assert_eq!(rt; ended.status, Status::Image(fault));
        }
    }
    Ok(())
}

#[test]
fn images_that_are_made_to_do_harm_are_refused(rt: HostRuntime) -> Result<(), Fail> {
    let alloc = rt.alloc();
    let mut zeros = vec![in alloc; 0u64; 1_048_579]?;
    if let Some(words) = zeros.first_mut() {
        *words = 1_048_577;
    }
    let cases: [(&[u64], ImageFault); 4] = [
        (
            &[u64::MAX, 0],
            ImageFault::new(ImageKind::TooManyWords, 8, u64::MAX),
        ),
        (
            &[5, 1, 30064771073, 5, 34359803904, 99, 38654705664, 2],
            ImageFault::new(ImageKind::BadRoot, 0, 2),
        ),
        (
            &[5, 1, 65535, 5, 34359803904, 99, 38654705664, 1],
            ImageFault::new(ImageKind::Overrun, 0, 65535),
        ),
        (
            &zeros,
            ImageFault::new(ImageKind::TooManyObjects, 1_048_576, 0),
        ),
    ];
    for (numbers, fault) in cases {
        let bytes = image(alloc, numbers)?;
        for word in ["compact", "mark", "check"] {
            let ended = Attempt::new(&[word], &bytes).ended(&rt, alloc)?;
            assert_eq!(rt; ended.status, Status::Image(fault));
            assert!(rt; ended.sink.written().is_empty());
        }
    }
    Ok(())
}

/// A source without end: some first bytes, and then one byte again and again.
#[derive(Drop)]
struct Endless<'a> {
    first: &'a [u8],
    byte: u8,
    /// How many bytes it gave.
    given: usize,
}

impl<'a> Source for Endless<'a> {
    ghost left = { λ s. None };

    ghost faults = { λ s. 0 };

    fn read(&mut self, into: &mut [u8]) -> Result<usize, Failed> {
        let count = self.first.len().min(into.len());
        into.fill(self.byte);
        into[..count].copy_from_slice(&self.first[..count]);
        self.first = &self.first[count..];
        self.given = self.given.saturating_add(into.len());
        Ok(into.len())
    }
}

#[test]
fn input_without_end_is_refused_one_byte_past_the_limit(rt: HostRuntime) -> Result<(), Fail> {
    let alloc = rt.alloc();
    let most = image(alloc, &[1 << 22, 1 << 16])?;
    let images = [
        (
            "compact",
            b"".as_slice(),
            0,
            ImageFault::new(ImageKind::Magic, 0, 0),
        ),
        (
            "mark",
            b"ROOMIMG1",
            0,
            ImageFault::new(ImageKind::Long, 24, 0),
        ),
        (
            "check",
            b"ROOMIMG1",
            255,
            ImageFault::new(ImageKind::TooManyWords, 8, u64::MAX),
        ),
        // 24 bytes, and 8 for each of 2^22 words and 2^16 roots
        (
            "compact",
            &most,
            0,
            ImageFault::new(ImageKind::Long, 34_078_744, 0),
        ),
    ];
    let mut sink = MemSink::new(alloc, 0, Vec::new(alloc), 1)?;
    for (word, first, byte, fault) in images {
        let mut source = Endless {
            first,
            byte,
            given: 0,
        };
        let mut notes = MemSink::new(alloc, 100, Vec::new(alloc), 100)?;
        let status = status_on(&rt, alloc, &[word], &mut source, &mut sink, &mut notes)?;
        assert_eq!(rt; status, Status::Image(fault));
        assert_eq!(rt; source.given, 34_078_745);
    }
    let texts = [
        ("schedule", "", b'\n'),
        ("schedule", "schedule 1\nrooms 1\ncallers 1\nstep ", b'0'),
        (
            "trial",
            "trial 1\nlayout split\nblocks 1\ndraws 1\ncaller\n",
            b'\n',
        ),
        ("trial", "", 0),
    ];
    for (word, first, byte) in texts {
        let mut source = Endless {
            first: first.as_bytes(),
            byte,
            given: 0,
        };
        let mut notes = MemSink::new(alloc, 100, Vec::new(alloc), 100)?;
        let status = status_on(&rt, alloc, &[word], &mut source, &mut sink, &mut notes)?;
        assert_eq!(rt; status, Status::TooLong);
        assert_eq!(rt; source.given, 1_048_577);
        assert_eq!(rt; notes.written(), b"text too long\n".as_slice());
    }
    assert_eq!(rt; sink.faults(), 0);
    Ok(())
}

/// A device of which each call fails, with a count of faults that may stand at its last value.
#[derive(Drop)]
struct Broken {
    faults: u64,
}

impl Source for Broken {
    ghost left = { λ s. None };

    ghost faults = { λ s. s.faults };

    fn read(&mut self, into: &mut [u8]) -> Result<usize, Failed> {
        let _ = into;
        self.faults = self.faults.saturating_add(1);
        Err(Failed)
    }
}

impl Sink for Broken {
    ghost written = { λ s. None };

    ghost faults = { λ s. s.faults };

    fn write(&mut self, from: &[u8]) -> Result<usize, Failed> {
        let _ = from;
        self.faults = self.faults.saturating_add(1);
        Err(Failed)
    }
}

#[test]
fn a_fault_is_told_where_its_count_cannot_rise(rt: HostRuntime) -> Result<(), Fail> {
    let alloc = rt.alloc();
    let text = b"schedule 1\nrooms 1\ncallers 1\n";
    for faults in [0, u64::MAX - 1, u64::MAX] {
        let after = faults.saturating_add(1);
        let (mut source, mut sink) = (Broken { faults }, Broken { faults });
        let mut notes = Broken { faults };
        let read = status_on(&rt, alloc, &["check"], &mut source, &mut sink, &mut notes)?;
        assert_eq!(rt; read, Status::ReadFault);
        assert_eq!(rt;
            (source.faults, sink.faults, notes.faults),
            (after, faults, after)
        );
        let mut source = MemSource::new(Vec::from_slice(alloc, text)?, Vec::new(alloc), 100);
        let written = status_on(
            &rt,
            alloc,
            &["schedule"],
            &mut source,
            &mut sink,
            &mut notes,
        )?;
        assert_eq!(rt; written, Status::WriteFault);
        assert_eq!(rt; sink.faults, after);
    }
    Ok(())
}
