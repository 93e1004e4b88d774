//! A handful of pushes, inside their room: one fetch-and-add for all items, and a store for each that has
//! a cell.
ghost use Rattle.std.specs.Prelude.{◌≡◌, ◌+◌, ◌*◌, ◌-◌, ◌<◌, ◌≤◌, length};
ghost use Rattle.bay_core.specs.declared.numbers.TheConstants.{MOST_DRAWS, MOST_ITEMS};
ghost use Rattle.bay_core.specs.declared.calls.Layout.TheVariants.{Split, Paged};
ghost use Rattle.bay_rule.specs.declared.views.Stage.TheVariants.{Resting};
ghost use Rattle.bay_rule.specs.Calls.{PushReady};
ghost use Rattle.bay_rule.specs.Draws.{used};
ghost use Rattle.bay_rule.specs.Leaving.{filling};
ghost use Rattle.bay_rule.specs.Told.{places_in, push_some_told};
ghost use Rattle.bay_store.specs.Acting.{IsReady, StillIn};
ghost use Rattle.bay_store.specs.Handfuls.{StopsAt, HasDrawn, Fills};

use crate::cells::aim;
use crate::entries::stack_entry;
use crate::items::Items;
use crate::pushes::count;
use crate::receipts::{Handful, Stop};
use bay_core::{BOTTOM, Layout};
use bay_rule::{BayUse, CELLS, Filling, PushingSome, TOP};
use room_gate::{Inside, Rooms};

/// Draws places of the stack for the items, one after another, and stores those whose places have cells.
/// It answers the first rank, how many it stored, and what stopped it.
pub(crate) fn push_some(
    rooms: &Rooms<BayUse>,
    inside: &mut Inside<BayUse>,
    who: u32,
    items: &Items,
) -> (u64, Handful)
    requires own { inside.old.caller.site ≡ rooms.now.site }
    requires who { inside.old.caller.who ≡ who }
    requires ready { IsReady 0 inside.old }
    requires some { 1 ≤ length items.now }
    requires few { length items.now ≤ MOST_ITEMS }
    requires shares { length items.now ≤ inside.old.caller.user.held }
    ensures draws { HasDrawn rooms.now.usage items.now who inside.old.opening.turn result.0 result.1 inside.old.caller.user inside.new.caller.user }
    ensures same { StillIn inside.old inside.new }
{
    match rooms.usage().layout() {
        Layout::Split => push_split(rooms, inside, who, items),
        Layout::Paged => push_paged(rooms, inside, who, items),
    }
}

// Where the stack has its own cells.
fn push_split(
    rooms: &Rooms<BayUse>,
    inside: &mut Inside<BayUse>,
    who: u32,
    items: &Items,
) -> (u64, Handful)
    requires own { inside.old.caller.site ≡ rooms.now.site }
    requires split { rooms.now.usage.layout ≡ Split }
    requires who { inside.old.caller.who ≡ who }
    requires ready { IsReady 0 inside.old }
    requires some { 1 ≤ length items.now }
    requires few { length items.now ≤ MOST_ITEMS }
    requires shares { length items.now ≤ inside.old.caller.user.held }
    ensures draws { HasDrawn rooms.now.usage items.now who inside.old.opening.turn result.0 result.1 inside.old.caller.user inside.new.caller.user }
    ensures same { StillIn inside.old inside.new }
{
    let end = BOTTOM + 32 * rooms.usage().blocks() as u64;
    let rank = draw(rooms, inside, who, items, 0, 0);
    let handful = stopped(end, 0, rank, items.len());
    let stored = &items.as_slice()[..handful.stored as usize];
    store_split(rooms, inside, stored, (rank - BOTTOM) as usize);
    (rank, handful)
}

// Where blocks change hands.
fn push_paged(
    rooms: &Rooms<BayUse>,
    inside: &mut Inside<BayUse>,
    who: u32,
    items: &Items,
) -> (u64, Handful)
    requires own { inside.old.caller.site ≡ rooms.now.site }
    requires paged { rooms.now.usage.layout ≡ Paged }
    requires who { inside.old.caller.who ≡ who }
    requires ready { IsReady 0 inside.old }
    requires some { 1 ≤ length items.now }
    requires few { length items.now ≤ MOST_ITEMS }
    requires shares { length items.now ≤ inside.old.caller.user.held }
    ensures draws { HasDrawn rooms.now.usage items.now who inside.old.opening.turn result.0 result.1 inside.old.caller.user inside.new.caller.user }
    ensures same { StillIn inside.old inside.new }
{
    let (pages, free) = count(rooms, inside);
    let rank = draw(rooms, inside, who, items, pages, free);
    let handful = stopped(BOTTOM + 64 * pages, free, rank, items.len());
    let stored = &items.as_slice()[..handful.stored as usize];
    store_paged(rooms, inside, stored, rank - BOTTOM);
    (rank, handful)
}

// Draws a place for each item by one fetch-and-add, and answers the first of their ranks.
fn draw(
    rooms: &Rooms<BayUse>,
    inside: &mut Inside<BayUse>,
    who: u32,
    items: &Items,
    pages: u64,
    free: u64,
) -> u64
    requires own { inside.old.caller.site ≡ rooms.now.site }
    requires who { inside.old.caller.who ≡ who }
    requires room { inside.old.opening.room ≡ 0 }
    requires some { 1 ≤ length items.now }
    requires few { length items.now ≤ MOST_ITEMS }
    requires ready { PushReady rooms.now.usage.layout inside.old.caller.user.stage pages free }
    requires fresh { inside.old.caller.user.last < inside.old.opening.turn }
    requires limited { used inside.old.caller.user < MOST_DRAWS }
    requires shares { length items.now ≤ inside.old.caller.user.held }
    ensures told { push_some_told rooms.now.usage.layout rooms.now.usage.blocks inside.old.opening.turn who items.now pages free inside.old.caller.user result (result + length items.now) inside.new.caller.user }
    ensures same { StillIn inside.old inside.new }
{
    let layout = rooms.usage().layout();
    let blocks = rooms.usage().blocks();
    let turn = inside.turn();
    let (items, count) = items.parts();
    let drawing = PushingSome {
        layout,
        blocks,
        turn,
        who,
        items,
        count,
        pages,
        free,
    };
    rooms.add(inside, TOP, count as u64, &drawing)
}

// How many of `count` places from `rank` on are before `end`, and what stops the others, where so many
// blocks are free.
fn stopped(end: u64, free: u64, rank: u64, count: usize) -> Handful
    requires some { 1 ≤ count }
    requires few { count ≤ MOST_ITEMS }
    ensures stored { result.stored ≡ places_in end rank count }
    ensures stop { StopsAt end free (rank + count) result.stop }
{
    let cells = end.saturating_sub(rank);
    if cells >= count as u64 {
        return Handful {
            stored: count as u32,
            stop: Stop::All,
        };
    }
    let stop = if free > 0 { Stop::Overflow } else { Stop::Full };
    Handful {
        stored: cells as u32,
        stop,
    }
}

// Stores the items into the cells from the place on, where the stack has its own cells.
fn store_split(rooms: &Rooms<BayUse>, inside: &mut Inside<BayUse>, items: &[u64], place: usize)
    requires own { inside.old.caller.site ≡ rooms.now.site }
    requires split { rooms.now.usage.layout ≡ Split }
    requires room { inside.old.opening.room ≡ 0 }
    requires stage { inside.old.caller.user.stage ≡ filling place items.now }
    requires below { 0 < length items.now → place + length items.now ≤ 32 * rooms.now.usage.blocks }
    ensures fills { Fills inside.old.caller.user inside.new.caller.user }
    ensures none { length items.now ≡ 0 → inside.new.caller.user ≡ inside.old.caller.user }
    ensures same { StillIn inside.old inside.new }
{
    for i in 0..items.len() {
        let next = place + i;
        let filling = Filling { place: next as u64 };
        rooms.store(inside, CELLS + next, items[i], &filling);
    }
}

// Stores the items into the cells from the place on, where blocks change hands.
fn store_paged(rooms: &Rooms<BayUse>, inside: &mut Inside<BayUse>, items: &[u64], place: u64)
    requires own { inside.old.caller.site ≡ rooms.now.site }
    requires paged { rooms.now.usage.layout ≡ Paged }
    requires room { inside.old.opening.room ≡ 0 }
    requires stage { inside.old.caller.user.stage ≡ filling place items.now }
    requires below { 0 < length items.now → place + length items.now ≤ 64 * rooms.now.usage.blocks }
    ensures fills { Fills inside.old.caller.user inside.new.caller.user }
    ensures none { length items.now ≡ 0 → inside.new.caller.user ≡ inside.old.caller.user }
    ensures same { StillIn inside.old inside.new }
{
    let blocks = rooms.usage().blocks();
    for i in 0..items.len() {
        let next = place + i as u64;
        let cell = aim(rooms, inside, stack_entry(blocks, next / 64), next % 64);
        rooms.store(inside, cell, items[i], &Filling { place: next });
    }
}
