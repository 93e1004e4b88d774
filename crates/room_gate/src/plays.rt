//! What each step on the table tells. No value of these types is made.
ghost use Rattle.room_gate.specs.Rows.{drew};
ghost use Rattle.room_rule.specs.Looking.{looked_by};
ghost use Rattle.room_rule.specs.Told.{stepped_by, left_by};
ghost use Rattle.room_rule.specs.View.{after_hire, hired, noted, learned, gone, keeper, taken_in};
ghost use Rattle.std.specs.Prelude.{◌≡◌};

use atomic_table::{Join, Play, Split};
use room_rule::{RoomUse, Shown};
use std::marker::PhantomData;

/// A draw.
pub(crate) struct Draws;

impl<S, V> Play<Option<S>, Shown<V>> for Draws {
    ghost then = { drew };
}

/// A step of the protocol, by the row of the seat's phase.
pub(crate) struct Steps<U> {
    usage: PhantomData<U>,
}

impl<U: RoomUse> Play<Option<U::Slot>, Shown<U::View>> for Steps<U> {
    ghost then = { λ _ before found after. stepped_by U.meaning U.ROOMS before found after };
}

/// The maker makes one pass.
pub(crate) struct Hires<U> {
    usage: PhantomData<U>,
}

impl<U: RoomUse> Split<Shown<U::View>> for Hires<U> {
    ghost left = { after_hire };

    ghost right = { hired U.meaning.starts };
}

/// A note is made of what its maker has seen.
pub(crate) struct Notes;

impl<V> Split<Shown<V>> for Notes {
    ghost left = { λ v. v };

    ghost right = { noted };
}

/// A note is learned.
pub(crate) struct Learns<U> {
    usage: PhantomData<U>,
}

impl<U: RoomUse> Join<Shown<U::View>> for Learns<U> {
    ghost both = { learned };

    ghost spent = { gone U.meaning.starts };
}

/// A departure.
pub(crate) struct Leaves;

impl<S, V> Play<Option<S>, Shown<V>> for Leaves {
    ghost then = { λ _ before found after. left_by before found after };
}

/// A seat comes in that takes in passes.
pub(crate) struct Keeps<U> {
    usage: PhantomData<U>,
}

impl<U: RoomUse> Play<Option<U::Slot>, Shown<U::View>> for Keeps<U> {
    ghost then = { λ _ _ _ after. after.0 ≡ keeper U.meaning.starts };
}

/// It takes in a pass.
pub(crate) struct TakesIn<U> {
    usage: PhantomData<U>,
}

impl<U: RoomUse> Join<Shown<U::View>> for TakesIn<U> {
    ghost both = { taken_in };

    ghost spent = { gone U.meaning.starts };
}

/// An insider looks at the active word.
pub(crate) struct Looks;

impl<S, V> Play<Option<S>, Shown<V>> for Looks {
    ghost then = { λ _ before found after. looked_by before found after };
}
