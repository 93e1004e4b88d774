//! The machine: a state, and what one act of one caller does.
ghost use Rattle.std.specs.Prelude.{◌≡◌, ◌↔◌, false, ℕ, ◌<◌, ◌≤◌, ◌^◌, length, slice_index, slice_get, Err, IfOk, OnErr, IsNone, IsSome, IfSome};
ghost use Rattle.std.specs.Option.{option_copied};
ghost use Rattle.room_core.specs.Words.{CanTouch, HasWord, held};
ghost use Rattle.room_core.specs.Machine.{row_of, acting, drawing_from, leaving_from, stepping, draws_after};
ghost use Rattle.room_core.specs.Runs.{start};
ghost use Rattle.room_core.specs.Refusals.{Refuses};
ghost use Rattle.room_core.specs.Core.{event_of, state_after, is_leaving, is_trying, IsNamed, IsSized, IsSmall};

use crate::acts::{Act, Refused};
use crate::items::Event;
use crate::phases::Phase;
use crate::words::{Word, Words};
use std::alloc::{AllocError, Global};
use std::marker::Model;

mod rows;

/// The most draws that one caller may make.
const MOST_DRAWS: u64 = 1 << 48;

/// The pure protocol: the words of the rooms, and the phase and the number of draws of each caller.
///
/// Contracts see it as `words`, with `active` and one number a room in `wait`, `grant` and `done`;
/// as `phases`, one a caller; and as `draws`, one a caller. Some list of acts leads from the start
/// to each value of it.
#[derive(Drop)]
pub struct Core {
    words: Words,
    phases: Vec<Phase>,
    draws: Vec<u64>,
}

impl Model for Core {
    ghost use Rattle.room_core.specs.Machine.{State};
    ghost use Rattle.room_core.specs.Core.{IsReached};

    ghost Value = { State };

    ghost view = { λ c. record {
      words = c.words;
      phases = c.phases.items;
      draws = c.draws.items;
    } };

    ghost invariant = { λ c. IsReached (record {
      words = c.words;
      phases = c.phases.items;
      draws = c.draws.items;
    }) };
}

impl Core {
    /// A core with 1 to 7 rooms and up to 64 callers: all its words are 0, every caller is out, and
    /// none has drawn. It takes the memory of a whole run.
    ///
    /// # Errors
    ///
    /// Want of memory alone.
    pub fn new(alloc: Global, rooms: u8, callers: u32) -> Result<Core, AllocError>
        requires some { 0 < rooms }
        requires few { rooms ≤ 7 }
        requires crowd { callers ≤ 64 }
        ensures { IfOk result (λ core. core ≡ (start rooms callers).state) }
    {
        let wait = vec![in alloc; 0; rooms as usize]?;
        let grant = vec![in alloc; 0; rooms as usize]?;
        let done = vec![in alloc; 0; rooms as usize]?;
        let phases = vec![in alloc; Phase::Out; callers as usize]?;
        let draws = vec![in alloc; 0; callers as usize]?;
        let words = Words {
            active: 0,
            wait,
            grant,
            done,
        };
        Ok(Core {
            words,
            phases,
            draws,
        })
    }

    /// Does the one step of the caller's act, and answers it with what the trace gains.
    ///
    /// The time is the same for each number of callers and acts, and no memory is taken.
    ///
    /// # Errors
    ///
    /// `Refused` exactly where the act is refused, with the first reason in the order of `Refused`;
    /// nothing is changed then.
    pub fn step(&mut self, caller: u64, act: Act) -> Result<Event, Refused>
        ensures event { result ≡ event_of (row_of self.old caller act) }
        ensures state { self.new ≡ state_after self.old caller act (row_of self.old caller act) }
        ensures refused { (why : Refused) → (result ≡ Err why) ↔ Refuses self.old caller act why }
        ensures unchanged { OnErr result (self.new ≡ self.old) }
    {
        let (next, event) = self.row(caller, act)?;
        let caller = caller as usize;
        self.words.apply(event.touch);
        count_draw(&mut self.draws, caller, act);
        self.phases[caller] = next;
        Ok(event)
    }

    /// The caller's phase; `None` exactly where there is no such caller.
    pub fn phase(&self, caller: u64) -> Option<&Phase>
        ensures phase { option_copied result ≡ slice_get self.now.phases caller }
        ensures none { IsNone result ↔ (length self.now.phases ≤ caller) }
    {
        if caller < self.phases.len() as u64 {
            Some(&self.phases[caller as usize])
        } else {
            None
        }
    }

    /// The number that the word holds; `None` exactly where the word's room does not exist.
    pub fn word(&self, word: Word) -> Option<u64>
        ensures there { IsSome result ↔ HasWord self.now.words word }
        ensures value { IfSome result (λ value. value ≡ held self.now.words word) }
    {
        match word {
            Word::Wait(room) => self.words.wait.get(room as usize).copied(),
            Word::Grant(room) => self.words.grant.get(room as usize).copied(),
            Word::Done(room) => self.words.done.get(room as usize).copied(),
            Word::Active => Some(self.words.active),
        }
    }

    /// How many rooms there are.
    pub fn rooms(&self) -> u8
        ensures { result ≡ length self.now.words.wait }
    {
        self.bounds();
        self.words.wait.len() as u8
    }

    /// How many callers there are.
    pub fn callers(&self) -> u32
        ensures { result ≡ length self.now.phases }
    {
        self.bounds();
        self.phases.len() as u32
    }

    // The row of the caller's act, or why it is refused.
    fn row(&self, caller: u64, act: Act) -> Result<(Phase, Event), Refused>
        ensures row { result ≡ row_of self.now caller act }
        ensures caller { IfOk result (λ _. caller < length self.now.phases) }
        ensures drawers { length self.now.draws ≡ length self.now.phases }
        ensures touch { IfOk result (λ row. CanTouch self.now.words row.1.touch) }
        ensures draw { (c : ℕ) → slice_index self.now.draws c ≤ 2 ^ 48 }
    {
        self.bounds();
        if caller >= self.phases.len() as u64 {
            return Err(Refused::NoCaller);
        }
        let phase = self.phases[caller as usize];
        self.acting(caller as usize, phase, act)
    }

    fn acting(&self, caller: usize, phase: Phase, act: Act) -> Result<(Phase, Event), Refused>
        requires named { IsNamed (length self.now.words.wait) phase }
        requires caller { caller < length self.now.phases }
        requires small { IsSmall self.now }
        requires sized { IsSized self.now }
        ensures { result ≡ acting self.now caller phase act }
    {
        match act {
            Act::Draw(room) => self.drawing(caller, phase, room),
            Act::Step => self.stepping(caller, phase).ok_or(Refused::Stuck),
            Act::Leave => self.leaving(caller, phase),
        }
    }

    // A draw, tested in the order of the refusals.
    fn drawing(&self, caller: usize, phase: Phase, room: u64) -> Result<(Phase, Event), Refused>
        requires caller { caller < length self.now.phases }
        requires small { IsSmall self.now }
        requires sized { IsSized self.now }
        ensures { result ≡ acting self.now caller phase (Act.Draw room) }
    {
        if room >= self.words.wait.len() as u64 {
            return Err(Refused::NoRoom);
        }
        match phase {
            Phase::Out if self.draws[caller] == MOST_DRAWS => Err(Refused::Spent),
            Phase::Out => Ok(self.draw(room as u8)),
            _ => Err(Refused::NotFree),
        }
    }

    // The step of a phase; there is none for a caller that is out or inside.
    fn stepping(&self, caller: usize, phase: Phase) -> Option<(Phase, Event)>
        requires named { IsNamed (length self.now.words.wait) phase }
        requires caller { caller < 64 }
        requires small { IsSmall self.now }
        requires sized { IsSized self.now }
        ensures { result ≡ stepping self.now.words caller phase }
    {
        match phase {
            Phase::Out | Phase::Inside { .. } => None,
            Phase::Exiting { room, turn } => Some(self.end_exit(room, turn)),
            Phase::Peering { room, turn, k, w } => Some(self.peer(room, turn, k, w)),
            Phase::Scanning { room, turn, k } => Some(self.scan(room, turn, k)),
            Phase::Passing { turn, next } => Some(self.pass(turn, next)),
            _ => self.entering(caller, phase),
        }
    }

    // The step of a caller that holds a ticket and waits, or that opens a room.
    fn entering(&self, caller: usize, phase: Phase) -> Option<(Phase, Event)>
        requires named { IsNamed (length self.now.words.wait) phase }
        requires caller { caller < 64 }
        requires sized { IsSized self.now }
        requires enters { is_leaving phase ≡ false }
        ensures { result ≡ stepping self.now.words caller phase }
    {
        match phase {
            Phase::Looking {
                room,
                ticket,
                first,
            } => Some(self.look(room, ticket, first)),
            Phase::Glancing {
                room,
                ticket,
                first,
            } => Some(self.glance(room, ticket, first)),
            Phase::Seizing {
                room,
                ticket,
                first,
                idle,
            } => { Some(self.seize(room, ticket, first, idle)) }
            _ => self.opening(caller, phase),
        }
    }

    fn opening(&self, caller: usize, phase: Phase) -> Option<(Phase, Event)>
        requires named { IsNamed (length self.now.words.wait) phase }
        requires caller { caller < 64 }
        requires sized { IsSized self.now }
        requires enters { is_leaving phase ≡ false }
        requires opens { is_trying phase ≡ false }
        ensures { result ≡ stepping self.now.words caller phase }
    {
        match phase {
            Phase::Counting {
                room,
                ticket,
                first,
                turn,
            } => { Some(self.count(room, ticket, first, turn)) }
            Phase::Admitting {
                room,
                ticket,
                first,
                turn,
                to,
            } => { Some(self.admit(caller, room, ticket, first, turn, to)) }
            Phase::Turning {
                room,
                ticket,
                first,
                to,
            } => { Some(self.turn_in(caller, room, ticket, first, to)) }
            _ => None,
        }
    }

    fn leaving(&self, caller: usize, phase: Phase) -> Result<(Phase, Event), Refused>
        requires named { IsNamed (length self.now.words.wait) phase }
        requires caller { caller < 64 }
        requires small { IsSmall self.now }
        requires sized { IsSized self.now }
        ensures { result ≡ leaving_from self.now caller phase }
    {
        match phase {
            Phase::Inside { room, turn, to, .. } => Ok(self.depart(caller, room, turn, to)),
            _ => Err(Refused::NotIn),
        }
    }

    // What each state has that a run leads to.
    fn bounds(&self)
        ensures sized { IsSized self.now }
        ensures small { IsSmall self.now }
    {
        let _ = &self.phases;
    }
}

fn count_draw(draws: &mut Vec<u64>, caller: usize, act: Act)
    requires caller { caller < length draws.old.items }
    requires small { slice_index draws.old.items caller ≤ 2 ^ 48 }
    ensures { draws.new.items ≡ draws_after draws.old.items caller act }
{
    if let Act::Draw(_) = act {
        draws[caller] += 1;
    }
}
