//! The words of the rooms, and one step on one of them.
ghost use Rattle.std.specs.Prelude.{◌≡◌};
ghost use Rattle.room_core.specs.Words.{put, touched, HasWord, CanTouch};

use std::marker::Model;

/// A word of the rooms, by its room.
#[derive(Clone, Copy, Debug, PartialEq, Eq)]
pub enum Word {
    /// How many tickets of the room were drawn.
    Wait(u8),
    /// The last ticket of the room that was let in.
    Grant(u8),
    /// How many callers left the room.
    Done(u8),
    /// The turn, and which room is open or opens.
    Active,
}

/// One step on one word.
#[derive(Clone, Copy, Debug, PartialEq, Eq)]
pub enum Touch {
    /// Adds 1 to the word that held `old`.
    Add { word: Word, old: u64 },
    /// Reads `value`.
    Load { word: Word, value: u64 },
    /// Writes `value`.
    Store { word: Word, value: u64 },
    /// On the active word, which held `found`: writes `new` if it won.
    Swap { found: u64, new: u64, won: bool },
}

/// The words of the rooms.
#[derive(Drop)]
pub(crate) struct Words {
    pub(crate) active: u64,
    pub(crate) wait: Vec<u64>,
    pub(crate) grant: Vec<u64>,
    pub(crate) done: Vec<u64>,
}

impl Model for Words {
    ghost use Rattle.room_core.specs.Words.{Words as Counters};

    ghost Value = { Counters };

    ghost view = { λ w. record {
      active = w.active;
      wait = w.wait.items;
      grant = w.grant.items;
      done = w.done.items;
    } };
}

impl Words {
    pub(crate) fn apply(&mut self, touch: Touch)
        requires { CanTouch self.old touch }
        ensures { self.new ≡ touched self.old touch }
    {
        match touch {
            Touch::Add { word, old } => self.put(word, old + 1),
            Touch::Load { .. } => (),
            Touch::Store { word, value } => self.put(word, value),
            Touch::Swap { new, won, .. } => {
                if won {
                    self.active = new;
                }
            }
        }
    }

    fn put(&mut self, word: Word, value: u64)
        requires { HasWord self.old word }
        ensures { self.new ≡ put self.old word value }
    {
        match word {
            Word::Wait(room) => self.wait[room as usize] = value,
            Word::Grant(room) => self.grant[room as usize] = value,
            Word::Done(room) => self.done[room as usize] = value,
            Word::Active => self.active = value,
        }
    }
}
