//! A peek and a look at both lengths, inside their room: callers that look change no list, and are there
//! side by side.
ghost use Rattle.std.specs.Prelude.{◌≡◌, ◌+◌, ◌<◌};
ghost use Rattle.bay_core.specs.declared.calls.Op.TheVariants as ops;
ghost use Rattle.bay_core.specs.Rooms.{room_of};
ghost use Rattle.bay_rule.specs.declared.views.Look.TheVariants.{AtCell};
ghost use Rattle.bay_rule.specs.declared.views.Stage.TheVariants as stages;
ghost use Rattle.bay_rule.specs.Told.{most_in, look_told};
ghost use Rattle.bay_store.specs.Acting.{IsReady, Acts, StillIn, Sees};

use crate::cells::load_at_top;
use crate::entries::looks_word;
use bay_core::{BOTTOM, Layout, Op, Reply};
use bay_rule::{
    BayUse, CELLS, HEAD, Loading, Looking, PeekingTop, SizingHead, SizingTail, SizingTop, TAIL, TOP,
};
use room_gate::{Inside, Rooms};

/// Looks at the top item of the stack; where the stack is empty there is none. The answer is the rank
/// and the reply.
pub(crate) fn peek(rooms: &Rooms<BayUse>, inside: &mut Inside<BayUse>, who: u32) -> (u64, Reply)
    requires own { inside.old.caller.site ≡ rooms.now.site }
    requires who { inside.old.caller.who ≡ who }
    requires ready { IsReady 4 inside.old }
    ensures acts { Acts rooms.now.usage who inside.old.opening.turn ops.Peek 0 inside.old.caller.user inside.new.caller.user result.0 result.1 }
    ensures same { StillIn inside.old inside.new }
{
    let rank = count_look(rooms, inside, who, Op::Peek);
    let layout = rooms.usage().layout();
    let blocks = rooms.usage().blocks();
    let top = rooms.load(inside, TOP, &PeekingTop { layout, blocks });
    if top <= BOTTOM {
        return (rank, Reply::Empty);
    }
    let item = see(rooms, inside, top - (BOTTOM + 1));
    (rank, Reply::Item(item))
}

/// Looks how many items both lists have. The answer is the rank and the reply.
pub(crate) fn sizes(rooms: &Rooms<BayUse>, inside: &mut Inside<BayUse>, who: u32) -> (u64, Reply)
    requires own { inside.old.caller.site ≡ rooms.now.site }
    requires who { inside.old.caller.who ≡ who }
    requires ready { IsReady 4 inside.old }
    ensures acts { Acts rooms.now.usage who inside.old.opening.turn ops.Sizes 0 inside.old.caller.user inside.new.caller.user result.0 result.1 }
    ensures same { StillIn inside.old inside.new }
{
    let rank = count_look(rooms, inside, who, Op::Sizes);
    let items = rooms.load(inside, TOP, &SizingTop) - BOTTOM;
    let head = rooms.load(inside, HEAD, &SizingHead { items });
    let tail = rooms.load(inside, TAIL, &SizingTail { items, head });
    (rank, Reply::Sizes(items, tail - head))
}

// Counts the look in `looks`, and answers how many came before it in this turn, which is its rank.
fn count_look(rooms: &Rooms<BayUse>, inside: &mut Inside<BayUse>, who: u32, op: Op) -> u64
    requires own { inside.old.caller.site ≡ rooms.now.site }
    requires who { inside.old.caller.who ≡ who }
    requires look { room_of op ≡ 4 }
    requires ready { IsReady 4 inside.old }
    ensures told { look_told rooms.now.usage.layout rooms.now.usage.blocks inside.old.opening.turn who op inside.old.caller.user result (result + 1) inside.new.caller.user }
    ensures same { StillIn inside.old inside.new }
{
    let word = looks_word(rooms.usage());
    let layout = rooms.usage().layout();
    let blocks = rooms.usage().blocks();
    let turn = inside.turn();
    let looking = Looking {
        layout,
        blocks,
        turn,
        who,
        op,
    };
    rooms.add(inside, word, 1, &looking)
}

// Loads the top item, which is at this place of the stack.
fn see(rooms: &Rooms<BayUse>, inside: &mut Inside<BayUse>, place: u64) -> u64
    requires own { inside.old.caller.site ≡ rooms.now.site }
    requires room { inside.old.opening.room ≡ 4 }
    requires stage { inside.old.caller.user.stage ≡ stages.Looking (AtCell place) }
    requires few { place < most_in rooms.now.usage.layout rooms.now.usage.blocks }
    ensures sees { Sees inside.old.caller.user inside.new.caller.user result }
    ensures same { StillIn inside.old inside.new }
{
    match rooms.usage().layout() {
        Layout::Split => rooms.load(inside, CELLS + place as usize, &Loading),
        Layout::Paged => load_at_top(rooms, inside, place),
    }
}
