//! Words, and the commands that they name.
use crate::{Command, Made, Options, named_command};
use bay_core::Layout;
use std::alloc::{AllocError, Global};
use std::test::Fail;

fn named(alloc: Global, line: &str) -> Result<Option<Command>, AllocError> {
    let mut words = Vec::new(alloc);
    if !line.is_empty() {
        for word in line.split(' ') {
            words.push(String::from_str(alloc, word)?)?;
        }
    }
    named_command(alloc, &words)
}

fn options(workers: u32, blocks: u32) -> Options {
    Options {
        workers,
        blocks,
        layout: Layout::Split,
    }
}

fn paged(workers: u32, blocks: u32) -> Options {
    Options {
        workers,
        blocks,
        layout: Layout::Paged,
    }
}

const THREE: Made = Made {
    objects: 3,
    seed: 5,
};

const MOST: Made = Made {
    objects: 1048576,
    seed: 18446744073709551615,
};

#[test]
fn words_that_name_a_command(rt: HostRuntime) -> Result<(), Fail> {
    let cases: [(&str, Command); 20] = [
        ("compact", Command::Compact(options(1, 64))),
        ("check", Command::Check),
        ("trial", Command::Trial),
        ("schedule", Command::Schedule),
        ("mark", Command::Mark(options(1, 64), None)),
        ("mark 3 5", Command::Mark(options(1, 64), Some(THREE))),
        ("make 3 5", Command::Make(THREE)),
        ("make 1048576 18446744073709551615", Command::Make(MOST)),
        ("--workers=2 compact", Command::Compact(options(2, 64))),
        (
            "compact --blocks 1 --workers 2",
            Command::Compact(options(2, 1)),
        ),
        (
            "compact --workers 16 --blocks 16384",
            Command::Compact(options(16, 16384)),
        ),
        (
            "--layout split --blocks=16384 compact --workers=1",
            Command::Compact(options(1, 16384)),
        ),
        ("--layout=split mark", Command::Mark(options(1, 64), None)),
        ("compact --layout paged", Command::Compact(paged(1, 64))),
        (
            "--blocks 2 compact --layout=paged --workers 4",
            Command::Compact(paged(4, 2)),
        ),
        (
            "mark 3 5 --layout paged --blocks=16384",
            Command::Mark(paged(1, 16384), Some(THREE)),
        ),
        (
            "--layout split compact --blocks 1",
            Command::Compact(options(1, 1)),
        ),
        (
            "mark --workers 4 --blocks 2 3 5",
            Command::Mark(options(4, 2), Some(THREE)),
        ),
        (
            "mark 3 --workers=4 5",
            Command::Mark(options(4, 64), Some(THREE)),
        ),
        (
            "--blocks 2 mark 3 5 --workers 4",
            Command::Mark(options(4, 2), Some(THREE)),
        ),
    ];
    for (line, command) in cases {
        assert_eq!(rt; named(rt.alloc(), line)?, Some(command));
    }
    Ok(())
}

const REFUSED: [&str; 56] = [
    "",
    " ",
    "compact ",
    " compact",
    "-",
    "--",
    "compact --",
    "compact -- compact",
    "-- compact",
    "-h",
    "--help",
    "--version",
    "help",
    "Compact",
    "compact compact",
    "compact 3 5",
    "compact 3",
    "compact --workers",
    "compact --workers -",
    "compact --workers -1",
    "compact --workers --blocks 2",
    "compact --workers=",
    "compact --workers= 2",
    "compact --workers==2",
    "compact --workers 0",
    "compact --workers 17",
    "compact --workers 02",
    "compact --workers +2",
    "compact --workers=-2",
    "compact --workers 2 --workers 2",
    "compact --workers=2 --workers 2",
    "compact --blocks 0",
    "compact --blocks 16385",
    "compact --layout paged --blocks 1",
    "--blocks=1 mark --layout=paged",
    "compact --layout paged --blocks 0",
    "compact --layout paged --blocks 16385",
    "compact --layout paged --layout paged",
    "compact --layout page",
    "compact --layout",
    "compact --layout=",
    "check --layout paged",
    "compact --layout=Split",
    "compact --worker 2",
    "compact -w 2",
    "check --workers 1",
    "trial --blocks 1",
    "make 3 5 --workers 1",
    "check 1",
    "schedule 3 5",
    "mark 5",
    "mark 3 5 7",
    "make",
    "make 3",
    "make 1048577 0",
    "make 0 18446744073709551616",
];

#[test]
fn words_that_name_none(rt: HostRuntime) -> Result<(), Fail> {
    for line in REFUSED {
        assert_eq!(rt; named(rt.alloc(), line)?, None);
    }
    Ok(())
}
