//! What holds of every table under the rule.
ghost use Rattle.room_core.specs.Order.{trace_of};
ghost use Rattle.room_rule.specs.Following.{StepsAreActs, DrawsAreActs, LeavesAreActs};
ghost use Rattle.room_rule.specs.Following.{InsidersKeepIt, HoldersKeepIt, TouchesKeepIt};
ghost use Rattle.room_rule.specs.States.{InEveryState, InsidersOccupy, OneRoom, NoneByTheKey};
ghost use Rattle.room_rule.specs.States.{IsBoundedAlways, InsidersHaveLooked};
ghost use Rattle.room_rule.specs.Quietly.{StepsAreQuiet};
ghost use Rattle.room_rule.specs.Writers.{HoldersStepOnWords, OutsidersChangeTouchWords};
ghost use Rattle.room_core.specs.Apart.{IsApart};
ghost use Rattle.room_core.specs.ExitOnce.{IsOncePerOpening};
ghost use Rattle.room_core.specs.Admission.{IsAdmission};
ghost use Rattle.room_core.specs.Choice.{IsCyclic};
ghost use Rattle.room_core.specs.Bypass.{IsPrompt};

use crate::uses::RoomUse;

/// The table follows the protocol, for every use: from any state that the rule allows, a caller's
/// step on a word of the rooms is its act in the protocol, and leads to the state after that act;
/// a step on a user word that the use allows to an insider, to the key's holder or to a caller
/// outside is no act, and leads to a state whose content is lawful again; and no act are the making
/// of the table and of passes, notes, an insider's look, and the close (`quiet`).
///
/// So what is true of every run of the protocol is true of what happened up to each of these
/// states: no two rooms are occupied at once, and none while somebody has the key.
///
/// A word that is no touch word is stepped on by insiders of the held room alone, or by the key's
/// holder while nobody occupies a room; a touch word is changed outside all rooms alone.
pub fn the_table_follows_the_protocol<U: RoomUse>()
    ensures steps { StepsAreActs U.meaning U.ROOMS }
    ensures draws { DrawsAreActs U.meaning U.ROOMS }
    ensures leaves { LeavesAreActs U.meaning U.ROOMS }
    ensures insiders { InsidersKeepIt U.meaning U.ROOMS }
    ensures holders { HoldersKeepIt U.meaning U.ROOMS }
    ensures touches { TouchesKeepIt U.meaning U.ROOMS }
    ensures quiet { StepsAreQuiet U.meaning U.ROOMS }
    ensures writers { HoldersStepOnWords U.meaning U.ROOMS }
    ensures touch_words { OutsidersChangeTouchWords U.meaning U.ROOMS }
    ensures apart { InEveryState U.meaning U.ROOMS (λ _ moments. IsApart (trace_of moments)) }
    ensures exit_once { InEveryState U.meaning U.ROOMS (λ _ moments. IsOncePerOpening (trace_of moments)) }
    ensures admission { InEveryState U.meaning U.ROOMS (λ _ moments. IsAdmission moments) }
    ensures cyclic { InEveryState U.meaning U.ROOMS IsCyclic }
    ensures prompt { InEveryState U.meaning U.ROOMS IsPrompt }
    ensures occupants { InsidersOccupy U.meaning U.ROOMS }
    ensures one_room { OneRoom U.meaning U.ROOMS }
    ensures none_by_the_key { NoneByTheKey U.meaning U.ROOMS }
    ensures looked { InsidersHaveLooked U.meaning U.ROOMS }
    ensures bounded { IsBoundedAlways U.meaning U.ROOMS }
{}
