//! Merges, checks and prints.
use crate::{CheckFault, MergeFault, check, merge, print_entries, print_lists, print_state};
use bay_core::{Entry, Layout, Op, Reply};
use std::alloc::Global;
use std::test::Fail;

const TOP: u64 = 4_294_967_296;

fn entry(turn: u64, rank: u64, op: Op, arg: u64, reply: Reply) -> Entry {
    Entry {
        turn,
        rank,
        who: 0,
        op,
        arg,
        reply,
    }
}

// Six calls of caller 0, in order.
fn six() -> [Entry; 6] {
    [
        entry(1, TOP, Op::Pop, 0, Reply::Empty),
        entry(2, TOP, Op::Push, 5, Reply::Done),
        entry(3, TOP + 1, Op::Push, 5, Reply::Done),
        entry(4, TOP - 2, Op::Pop, 0, Reply::Item(5)),
        entry(5, TOP - 1, Op::Pop, 0, Reply::Item(5)),
        entry(6, TOP, Op::Pop, 0, Reply::Empty),
    ]
}

fn list(alloc: Global, entries: &[Entry]) -> Result<Vec<Entry>, Fail> {
    let mut list = Vec::new(alloc);
    list.extend_from_slice(entries)?;
    Ok(list)
}

#[test]
fn pieces_of_a_history_are_merged_checked_and_printed(rt: HostRuntime) -> Result<(), Fail> {
    let calls = six();
    let pieces = [
        list(rt.alloc(), &[calls[5], calls[1], calls[3]])?,
        list(rt.alloc(), &[])?,
        list(rt.alloc(), &[calls[0], calls[2], calls[4]])?,
    ];
    let history = merge(rt.alloc(), &pieces)?;
    assert_eq!(rt; history.as_slice(), calls.as_slice());
    let state = check(rt.alloc(), Layout::Split, 1, &history)?;
    let lines = "1 4294967296 0 pop - empty\n2 4294967296 0 push 5 ok\n3 4294967297 0 push 5 ok\n\
         4 4294967294 0 pop - 5\n5 4294967295 0 pop - 5\n6 4294967296 0 pop - empty\n";
    assert_eq!(rt;
        print_entries(rt.alloc(), &history)?.as_slice(),
        lines.as_bytes()
    );
    assert_eq!(rt;
        print_state(rt.alloc(), &state)?.as_slice(),
        b"stack\nqueue\n".as_slice()
    );
    Ok(())
}

#[test]
fn twins_are_named_by_the_least(rt: HostRuntime) -> Result<(), Fail> {
    let one = entry(3, 8, Op::Enq, 1, Reply::Done);
    let other = entry(3, 8, Op::Deq, 0, Reply::Empty);
    let late = entry(4, 0, Op::Pop, 0, Reply::Empty);
    let rows = [
        [list(rt.alloc(), &[one])?, list(rt.alloc(), &[other])?],
        [
            list(rt.alloc(), &[late, one])?,
            list(rt.alloc(), &[late, one])?,
        ],
        [
            list(rt.alloc(), &[late, one, late, one])?,
            list(rt.alloc(), &[])?,
        ],
    ];
    for lists in &rows {
        match merge(rt.alloc(), lists) {
            Err(fault) => assert_eq!(rt; fault, MergeFault::Twin { turn: 3, rank: 8 }),
            Ok(_) => return Err("merged".into()),
        }
    }
    Ok(())
}

// What the check refuses.
fn fault(alloc: Global, entries: &[Entry]) -> Result<CheckFault, Fail> {
    match check(alloc, Layout::Split, 1, entries) {
        Err(fault) => Ok(fault),
        Ok(_) => Err("legal".into()),
    }
}

#[test]
fn the_check_names_the_first_fault(rt: HostRuntime) -> Result<(), Fail> {
    let [none, first, second, one, other, last] = six();
    let unlawful = [none, second, one, other, last];
    assert_eq!(rt; fault(rt.alloc(), &unlawful)?, CheckFault::Unlawful(3));
    let turned = [none, second, first, other, one];
    assert_eq!(rt; fault(rt.alloc(), &turned)?, CheckFault::Order(2));
    let twice = [none, first, first];
    assert_eq!(rt; fault(rt.alloc(), &twice)?, CheckFault::Order(2));
    // The second entry isn't lawful, but the order is judged first.
    let both = [none, one, first];
    assert_eq!(rt; fault(rt.alloc(), &both)?, CheckFault::Order(2));
    Ok(())
}

#[test]
fn looks_are_merged_checked_and_printed(rt: HostRuntime) -> Result<(), Fail> {
    let calls = [
        entry(1, 0, Op::Peek, 0, Reply::Empty),
        entry(2, TOP, Op::Push, 5, Reply::Done),
        entry(3, 0, Op::Sizes, 0, Reply::Sizes(1, 0)),
        entry(3, 1, Op::Peek, 0, Reply::Item(5)),
        entry(4, 0, Op::Enq, 6, Reply::Done),
        entry(5, 0, Op::Sizes, 0, Reply::Sizes(1, 1)),
    ];
    let pieces = [
        list(rt.alloc(), &[calls[3], calls[5]])?,
        list(rt.alloc(), &[calls[0], calls[1], calls[2], calls[4]])?,
    ];
    let history = merge(rt.alloc(), &pieces)?;
    assert_eq!(rt; history.as_slice(), calls.as_slice());
    let state = check(rt.alloc(), Layout::Paged, 2, &history)?;
    let lines = "1 0 0 peek - empty\n2 4294967296 0 push 5 ok\n3 0 0 sizes - 1/0\n3 1 0 peek - 5\n\
         4 0 0 enq 6 ok\n5 0 0 sizes - 1/1\n";
    assert_eq!(rt;
        print_entries(rt.alloc(), &history)?.as_slice(),
        lines.as_bytes()
    );
    assert_eq!(rt;
        print_state(rt.alloc(), &state)?.as_slice(),
        b"stack 5\nqueue 6\n".as_slice()
    );
    Ok(())
}

#[test]
fn a_look_says_what_the_lists_have(rt: HostRuntime) -> Result<(), Fail> {
    let push = entry(1, TOP, Op::Push, 5, Reply::Done);
    let looks = [
        entry(2, 0, Op::Peek, 0, Reply::Item(6)),
        entry(2, 0, Op::Peek, 0, Reply::Empty),
        entry(2, 0, Op::Sizes, 0, Reply::Sizes(0, 1)),
        entry(2, 0, Op::Sizes, 0, Reply::Sizes(0, 0)),
        entry(2, 0, Op::Sizes, 0, Reply::Empty),
        entry(2, 0, Op::Peek, 0, Reply::Sizes(1, 0)),
    ];
    for look in looks {
        assert_eq!(rt; fault(rt.alloc(), &[push, look])?, CheckFault::Unlawful(1));
    }
    Ok(())
}

// Peeks and looks at the lengths are counted together, so that no two have one rank.
#[test]
fn two_looks_of_one_rank_are_refused(rt: HostRuntime) -> Result<(), Fail> {
    let peek = entry(7, 0, Op::Peek, 0, Reply::Empty);
    let sizes = entry(7, 0, Op::Sizes, 0, Reply::Sizes(0, 0));
    assert_eq!(rt; fault(rt.alloc(), &[peek, sizes])?, CheckFault::Order(1));
    let lists = [list(rt.alloc(), &[peek])?, list(rt.alloc(), &[sizes])?];
    match merge(rt.alloc(), &lists) {
        Err(fault) => assert_eq!(rt; fault, MergeFault::Twin { turn: 7, rank: 0 }),
        Ok(_) => return Err("merged".into()),
    }
    Ok(())
}

#[test]
fn a_push_past_the_last_cell_is_not_lawful(rt: HostRuntime) -> Result<(), Fail> {
    let mut pushes = Vec::new(rt.alloc());
    for i in 0..33 {
        pushes.push(entry(i + 1, TOP + i, Op::Push, 0, Reply::Done))?;
    }
    assert_eq!(rt; fault(rt.alloc(), &pushes)?, CheckFault::Unlawful(32));
    Ok(())
}

#[test]
fn each_call_and_reply_has_its_words(rt: HostRuntime) -> Result<(), Fail> {
    let entries = [
        entry(1, 0, Op::Enq, 7, Reply::Done),
        entry(2, 1, Op::Enq, 8, Reply::Done),
        entry(3, 2, Op::Enq, 9, Reply::Done),
        entry(4, 0, Op::Deq, 0, Reply::Item(7)),
        entry(5, TOP, Op::Push, 18446744073709551615, Reply::Done),
        entry(6, TOP + 1, Op::Push, 3, Reply::Done),
    ];
    let lines = "1 0 0 enq 7 ok\n2 1 0 enq 8 ok\n3 2 0 enq 9 ok\n4 0 0 deq - 7\n\
         5 4294967296 0 push 18446744073709551615 ok\n6 4294967297 0 push 3 ok\n";
    assert_eq!(rt;
        print_entries(rt.alloc(), &entries)?.as_slice(),
        lines.as_bytes()
    );
    let state = check(rt.alloc(), Layout::Split, 1, &entries)?;
    let text = b"stack 18446744073709551615 3\nqueue 8 9\n";
    assert_eq!(rt;
        print_state(rt.alloc(), &state)?.as_slice(),
        text.as_slice()
    );
    let lists = print_lists(rt.alloc(), &[18_446_744_073_709_551_615, 3], &[8, 9])?;
    assert_eq!(rt; lists.as_slice(), text.as_slice());
    let full = [entry(1, TOP, Op::Push, 5, Reply::Full)];
    assert_eq!(rt;
        print_entries(rt.alloc(), &full)?.as_slice(),
        b"1 4294967296 0 push 5 full\n".as_slice()
    );
    assert_eq!(rt; print_entries(rt.alloc(), &[])?.len(), 0);
    Ok(())
}

// So many pushes on an empty stack, each in a turn of its own, and one that is answered full.
fn pushes_and_a_full(alloc: Global, stored: u64) -> Result<Vec<Entry>, Fail> {
    let mut entries = Vec::new(alloc);
    for item in 0..stored {
        let turn = item.saturating_add(1);
        entries.push(entry(turn, TOP.saturating_add(item), Op::Push, item, Reply::Done))?;
    }
    let turn = stored.saturating_add(1);
    entries.push(entry(turn, TOP.saturating_add(stored), Op::Push, 7, Reply::Full))?;
    Ok(entries)
}

#[test]
fn a_push_is_full_where_its_layout_has_no_cell(rt: HostRuntime) -> Result<(), Fail> {
    let cases = [
        (Layout::Split, 64, true),
        (Layout::Split, 63, false),
        (Layout::Paged, 128, true),
        (Layout::Paged, 64, true),
        (Layout::Paged, 63, false),
        (Layout::Paged, 0, false),
    ];
    for (layout, stored, lawful) in cases {
        let entries = pushes_and_a_full(rt.alloc(), stored)?;
        let answer = match check(rt.alloc(), layout, 2, &entries) {
            Ok(_) => None,
            Err(fault) => Some(fault),
        };
        let wanted = if lawful {
            None
        } else {
            Some(CheckFault::Unlawful(stored as usize))
        };
        assert_eq!(rt; answer, wanted);
    }
    Ok(())
}
