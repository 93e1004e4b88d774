//! What each step on the table tells. No value of these types is made.
ghost use Rattle.mark_words.specs.Told.{Claimed, Looked, Named};
ghost use Rattle.mark_words.specs.View.{after_hire, hired, nobody, taken_in};
ghost use Rattle.std.specs.Prelude.{◌≡◌};

use crate::views::Known;
use atomic_table::{Join, Play, Split};

/// A claim of a bit.
pub(crate) struct Claiming;

impl<S> Play<S, Known> for Claiming {
    ghost then = { Claimed };
}

/// A load whose word tells which place in a word is looked at next.
pub(crate) struct Naming;

impl<S> Play<S, Known> for Naming {
    ghost then = { Named };
}

/// A look at a bit.
pub(crate) struct Looking;

impl<S> Play<S, Known> for Looking {
    ghost then = { Looked };
}

/// The maker makes one seat.
pub(crate) struct Hires;

impl Split<Known> for Hires {
    ghost left = { after_hire };

    ghost right = { hired };
}

/// A seat comes in that takes in others.
pub(crate) struct Enters;

impl<S> Play<S, Known> for Enters {
    ghost then = { λ _ _ _ after. after.0 ≡ nobody };
}

/// It takes in a seat.
pub(crate) struct TakesIn;

impl Join<Known> for TakesIn {
    ghost both = { taken_in };

    ghost spent = { nobody };
}
