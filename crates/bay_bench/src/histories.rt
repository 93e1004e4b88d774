//! The history of a crew: printed, or checked.
ghost use Rattle.room_script.specs.Trials.{IsBlocks};

use crate::words::Blocks;
use bay_core::{Entry, Layout};
use bay_crew::{Mix, crew};
use room_history::{check, merge, print_entries};
use room_trial::Played;
use std::alloc::Global;
use std::io;
use std::io::{ErrorKind, Print};
use std::sync::Wait;
use std::thread::Threads;

// The failure of a history that isn't as it should be.
fn not_whole() -> io::Error {
    io::Error::from(ErrorKind::InvalidData)
}

// Runs a crew on both lists, and merges its entries.
fn history<R: Threads + Wait + Sync>(
    rt: &R,
    alloc: Global,
    blocks: Blocks,
    callers: u32,
    calls: u32,
) -> io::Result<(Vec<Entry>, Played)>
    requires { IsBlocks blocks.layout blocks.count }
{
    if callers > 64 {
        return Err(not_whole());
    }
    let ran = crew(
        rt,
        alloc,
        blocks.layout,
        blocks.count,
        callers,
        calls,
        Mix::Both,
    )?;
    match merge(alloc, &ran.entries) {
        Ok(all) => Ok((all, ran)),
        Err(_) => Err(not_whole()),
    }
}

/// Prints the entries of all calls, the items of both lists at the end, and the last `live`, to
/// standard output. It fails where there are more than 64 callers.
pub fn print_history<R: Threads + Wait + Sync + Print>(
    rt: &R,
    alloc: Global,
    blocks: Blocks,
    callers: u32,
    calls: u32,
) -> io::Result<()>
    requires { IsBlocks blocks.layout blocks.count }
{
    let (all, ran) = history(rt, alloc, blocks, callers, calls)?;
    let text = print_entries(alloc, &all)?;
    let Ok(lines) = String::from_utf8(text) else {
        return Err(not_whole());
    };
    print!(rt; "{lines}")?;
    print_items(rt, "stack", &ran.closed.stack)?;
    print_items(rt, "queue", &ran.closed.queue)?;
    println!(rt; "live {}", ran.closed.live)
}

// Prints a line with a name and items.
fn print_items<R: Print>(rt: &R, name: &str, items: &[u64]) -> io::Result<()> {
    print!(rt; "{name}")?;
    for item in items {
        print!(rt; " {item}")?;
    }
    println!(rt)
}

/// Checks a small history under each layout, and that it leaves what the bay had left. It fails where
/// that isn't so.
pub fn try_histories<R: Threads + Wait + Sync>(rt: &R, alloc: Global) -> io::Result<()> {
    for layout in [Layout::Split, Layout::Paged] {
        try_history(rt, alloc, Blocks { layout, count: 2 })?;
    }
    Ok(())
}

// Checks a small history.
fn try_history<R: Threads + Wait + Sync>(rt: &R, alloc: Global, blocks: Blocks) -> io::Result<()>
    requires { IsBlocks blocks.layout blocks.count }
{
    let (all, ran) = history(rt, alloc, blocks, 4, 50)?;
    let Ok(state) = check(alloc, blocks.layout, blocks.count, &all) else {
        return Err(not_whole());
    };
    let (oldest, newest) = state.queue().as_slices();
    let stack = state.stack() == ran.closed.stack.as_slice();
    let queue = is_made_of(&ran.closed.queue, oldest, newest);
    if all.len() == 200 && stack && queue {
        Ok(())
    } else {
        Err(not_whole())
    }
}

// Whether the items are those of both slices, one after the other.
fn is_made_of(items: &[u64], first: &[u64], second: &[u64]) -> bool {
    match items.strip_prefix(first) {
        Some(rest) => rest == second,
        None => false,
    }
}
