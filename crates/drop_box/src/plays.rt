//! What each step on a word of the box tells its caller.
ghost use Rattle.drop_box.specs.Plays.{went_through, brought_home, set_back, rang};

use crate::uses::BoxUse;
use room_rule::Outcome;

/// A step through the turnstile.
pub(crate) struct GoesThrough;

impl<T: Drop> Outcome<BoxUse<T>> for GoesThrough {
    ghost then = { λ _. went_through };
}

/// The slot is brought home.
pub(crate) struct BringsHome;

impl<T: Drop> Outcome<BoxUse<T>> for BringsHome {
    ghost then = { λ _. brought_home };
}

/// The exit code sets the turnstile back.
pub(crate) struct SetsBack;

impl<T: Drop> Outcome<BoxUse<T>> for SetsBack {
    ghost then = { λ _. set_back };
}

/// The bell is rung.
pub(crate) struct Rings;

impl<T: Drop> Outcome<BoxUse<T>> for Rings {
    ghost then = { λ _. rang };
}
