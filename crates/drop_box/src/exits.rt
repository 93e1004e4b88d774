//! The exit code of a turn.
ghost use Rattle.std.specs.Prelude.{◌≡◌};

use crate::plays::SetsBack;
use crate::uses::{BoxUse, TURNSTILE};
use room_gate::{ExitCode, Key, Rooms};

/// It sets the turnstile back to 0, so that the next turn has a first caller again.
#[derive(Drop)]
pub(crate) struct Resets;

impl<T: Drop> ExitCode<BoxUse<T>> for Resets {
    ghost ran = { λ before after. after ≡ before };

    fn run(&mut self, rooms: &Rooms<BoxUse<T>>, key: &mut Key<BoxUse<T>>) {
        rooms.key_store::<SetsBack>(key, TURNSTILE, 0, &SetsBack);
    }
}
