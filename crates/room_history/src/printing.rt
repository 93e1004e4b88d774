//! Entries and contents as text.
ghost use Rattle.std.specs.Prelude.{◌≡◌, ◌++◌, OnOk, IfOk, string_bytes};
ghost use Rattle.std.specs.List.{flat_map};
ghost use Rattle.room_history.specs.Prints.{front_words, reply_end, entry_line, items_text, lists_text, state_text};

use bay_core::{Entry, Op, Reply, State};
use std::alloc::{AllocError, Global};
use std::fmt::Write;

/// A line for each entry, in their order: `TURN RANK WHO OP ARG REPLY`. `OP` is `push`, `pop`,
/// `enq`, `deq`, `peek` or `sizes`; `ARG` is the item of a push or an enqueue, and else `-`; `REPLY`
/// is `ok`, `full`, the item taken or seen, `empty`, or `S/Q` with the lengths of the stack and of
/// the queue. Each line ends with a newline. It takes memory from `alloc`.
///
/// # Errors
///
/// Want of memory alone.
pub fn print_entries(alloc: Global, entries: &[Entry]) -> Result<Vec<u8>, AllocError>
    ensures { IfOk result (λ text. text.items ≡ flat_map entry_line entries.now) }
{
    let mut text = String::new(alloc);
    for entry in entries {
        print_front(&mut text, entry)?;
        print_reply(&mut text, entry.reply)?;
    }
    Ok(text.into_bytes())
}

// The words of an entry before its reply, and a space.
fn print_front(text: &mut String, entry: &Entry) -> Result<(), AllocError>
    ensures { OnOk result (string_bytes text.new ≡ string_bytes text.old ++ front_words entry.now) }
{
    let Entry {
        turn,
        rank,
        who,
        arg,
        ..
    } = *entry;
    match entry.op {
        Op::Push => write!(text, "{turn} {rank} {who} push {arg} "),
        Op::Pop => write!(text, "{turn} {rank} {who} pop - "),
        Op::Enq => write!(text, "{turn} {rank} {who} enq {arg} "),
        Op::Deq => write!(text, "{turn} {rank} {who} deq - "),
        Op::Peek => write!(text, "{turn} {rank} {who} peek - "),
        Op::Sizes => write!(text, "{turn} {rank} {who} sizes - "),
    }
}

// The reply, and the end of the line.
fn print_reply(text: &mut String, reply: Reply) -> Result<(), AllocError>
    ensures { OnOk result (string_bytes text.new ≡ string_bytes text.old ++ reply_end reply) }
{
    match reply {
        Reply::Done => writeln!(text, "ok"),
        Reply::Full => writeln!(text, "full"),
        Reply::Item(item) => writeln!(text, "{item}"),
        Reply::Empty => writeln!(text, "empty"),
        Reply::Sizes(stack, queue) => writeln!(text, "{stack}/{queue}"),
    }
}

/// Two lines: `stack` followed by the items of the stack, the bottom one first, and `queue`
/// followed by those of the queue, the oldest one first. A space stands before each item. Each line
/// ends with a newline. It takes memory from `alloc`.
///
/// # Errors
///
/// Want of memory alone.
pub fn print_state(alloc: Global, state: &State) -> Result<Vec<u8>, AllocError>
    ensures { IfOk result (λ text. text.items ≡ state_text state.now) }
{
    let (oldest, newest) = state.queue().as_slices();
    lines_of_lists(alloc, state.stack(), oldest, newest)
}

/// The lines of `print_state` for a stack with its bottom first and a queue with its oldest first. It
/// takes memory from `alloc`.
///
/// # Errors
///
/// Want of memory alone.
pub fn print_lists(alloc: Global, stack: &[u64], queue: &[u64]) -> Result<Vec<u8>, AllocError>
    ensures { IfOk result (λ text. text.items ≡ lists_text stack.now queue.now) }
{
    lines_of_lists(alloc, stack, queue, &[])
}

// The lines of a stack and of a queue, whose items come in two pieces.
fn lines_of_lists(
    alloc: Global,
    stack: &[u64],
    oldest: &[u64],
    newest: &[u64],
) -> Result<Vec<u8>, AllocError>
    ensures { IfOk result (λ text. text.items ≡ lists_text stack.now (oldest.now ++ newest.now)) }
{
    let mut text = String::new(alloc);
    write!(text, "stack")?;
    print_items(&mut text, stack)?;
    write!(text, "\nqueue")?;
    print_items(&mut text, oldest)?;
    print_items(&mut text, newest)?;
    writeln!(text)?;
    Ok(text.into_bytes())
}

// The items, with a space before each.
fn print_items(text: &mut String, items: &[u64]) -> Result<(), AllocError>
    ensures { OnOk result (string_bytes text.new ≡ string_bytes text.old ++ items_text items.now) }
{
    for item in items {
        write!(text, " {item}")?;
    }
    Ok(())
}
