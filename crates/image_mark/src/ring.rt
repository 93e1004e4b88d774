//! What is gone through next.
ghost use Rattle.std.specs.Prelude.{◌≡◌, ◌<◌, ◌≤◌, ◌↔◌, [], ◌∷◌, ◌++◌, length, IfSome, IfNone, IsTrue};

use std::marker::Model;

// A place that is gone through soon, and the header that stands there.
#[derive(Clone, Copy, Drop)]
pub(crate) struct Next {
    pub(crate) place: u32,
    pub(crate) header: u64,
}

// Up to 8 places with their headers. Each header was read as its place entered, so that it has come
// from memory when its turn does. Contracts see them in the order in which they entered.
#[derive(Drop)]
pub(crate) struct Ring {
    slots: [Next; 8],
    oldest: usize,
    held: usize,
}

impl Model for Ring {
    ghost use Rattle.std.specs.Prelude.{◌≡◌, ◌<◌, ◌≤◌, List, length};
    ghost use Rattle.image_mark.specs.declared.ring.Next.{Next};
    ghost use Rattle.image_mark.specs.Windows.{window};

    ghost Value = { List Next };

    ghost view = { λ r. window r.oldest r.held r.slots };

    ghost invariant = { λ r. (r.oldest < 8) × (r.held ≤ 8) × (length r.slots ≡ 8) };
}

impl Ring {
    // A ring that holds nothing.
    pub(crate) fn new() -> Ring
        ensures { result ≡ [] }
    {
        Ring {
            slots: [Next {
                place: 0,
                header: 0,
            }; 8],
            oldest: 0,
            held: 0,
        }
    }

    // Whether it holds 8.
    #[inline]
    pub(crate) fn is_full(&self) -> bool
        ensures full { IsTrue result ↔ (length self.now ≡ 8) }
        ensures few { length self.now ≤ 8 }
    {
        self.held == 8
    }

    // One more enters, for which there is room.
    #[inline]
    pub(crate) fn put(&mut self, next: Next)
        requires { length self.old < 8 }
        ensures { self.new ≡ self.old ++ next ∷ [] }
    {
        self.slots[(self.oldest + self.held) % 8] = next;
        self.held += 1;
    }

    // The oldest leaves, if it holds any.
    #[inline]
    pub(crate) fn take(&mut self) -> Option<Next>
        ensures some { IfSome result (λ next. self.old ≡ next ∷ self.new) }
        ensures none { IfNone result ((self.old ≡ []) × (self.new ≡ [])) }
    {
        if self.held == 0 {
            return None;
        }
        let next = self.slots[self.oldest];
        self.oldest = (self.oldest + 1) % 8;
        self.held -= 1;
        Some(next)
    }
}
