//! Marking images that are read, and images that are made.
use super::{Attempt, FIVE_WORDS, ONE_OBJECT, WEAK_ITSELF, WEAK_WORDS, framed, image};
use crate::Status;
use image_core::{ImageFault, ImageKind};
use std::test::Fail;

const ONE_OBJECT_MARKED: &str = "objects 1\nlive 1\nwords 4\nkept 4\nroots 1\nfold 60664753896\n";

#[test]
fn mark_prints_six_lines(rt: HostRuntime) -> Result<(), Fail> {
    let alloc = rt.alloc();
    let cases: [(&[&str], &[u64], &str); 4] = [
        (&["mark"], &ONE_OBJECT, ONE_OBJECT_MARKED),
        (
            &["mark"],
            &FIVE_WORDS,
            "objects 3\nlive 2\nwords 5\nkept 3\nroots 1\nfold 896857890914211\n",
        ),
        (
            &["mark", "--workers", "4"],
            &[0, 0],
            "objects 0\nlive 0\nwords 0\nkept 0\nroots 0\nfold 0\n",
        ),
        (&["mark", "--layout=paged"], &ONE_OBJECT, ONE_OBJECT_MARKED),
    ];
    for (words, input, output) in cases {
        let input = image(alloc, input)?;
        let ended = Attempt::new(words, &input).ended(&rt, alloc)?;
        ended.gave(&rt, output.as_bytes());
        assert!(rt; ended.source.left().is_empty());
    }
    Ok(())
}

#[test]
fn mark_counts_what_references_alone_lead_to(rt: HostRuntime) -> Result<(), Fail> {
    let alloc = rt.alloc();
    // the fold is of the slide's words and root, by the rule
    let cases: [(&[u64], &str); 2] = [
        (
            &WEAK_WORDS,
            "objects 3\nlive 2\nwords 7\nkept 5\nroots 1\nfold 1141341860492293827\n",
        ),
        (
            &WEAK_ITSELF,
            "objects 1\nlive 0\nwords 2\nkept 0\nroots 1\nfold 0\n",
        ),
    ];
    let crews: [&[&str]; 2] = [&["mark"], &["mark", "--workers", "2"]];
    for (input, output) in cases {
        let input = framed(alloc, b"ROOMIMG2", input)?;
        for words in crews {
            let ended = Attempt::new(words, &input).ended(&rt, alloc)?;
            ended.gave(&rt, output.as_bytes());
        }
    }
    Ok(())
}

#[test]
fn mark_refuses_what_is_no_image(rt: HostRuntime) -> Result<(), Fail> {
    let alloc = rt.alloc();
    let mut short = image(alloc, &[0, 0])?;
    short.truncate(23);
    let ended = Attempt::new(&["mark"], &short).ended(&rt, alloc)?;
    ended.refused(
        &rt,
        Status::Image(ImageFault::new(ImageKind::Short, 23, 24)),
        "image Short place 23 value 24\n",
    );
    Ok(())
}

#[test]
fn mark_of_a_made_image_reads_nothing(rt: HostRuntime) -> Result<(), Fail> {
    let alloc = rt.alloc();
    // the lines of the larger image are those of a model in another language
    let large =
        "objects 100000\nlive 58117\nwords 287520\nkept 166937\nroots 16\nfold 8342302079909005549\n";
    let cases: [(&[&str], &str); 3] = [
        (&["mark", "1", "1"], ONE_OBJECT_MARKED),
        (&["mark", "100000", "1"], large),
        (
            &["mark", "--workers", "4", "--blocks", "2", "100000", "1"],
            large,
        ),
    ];
    for (words, output) in cases {
        let mut attempt = Attempt::new(words, b"unread");
        attempt.failing_read = Some(0);
        let ended = attempt.ended(&rt, alloc)?;
        ended.gave(&rt, output.as_bytes());
        assert_eq!(rt; ended.source.left(), b"unread".as_slice());
        assert_eq!(rt; ended.source.faults(), 0);
    }
    Ok(())
}
