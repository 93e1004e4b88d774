//! The words of rooms, and their places.
use crate::{
    ACTIVE_PLACE, Bare, RoomUse, code_of, done_place, grant_place, pack,
    the_table_follows_the_protocol, turn_of, user_place, wait_place,
};

#[test]
fn an_active_word_has_a_turn_and_a_code(rt: HostRuntime) {
    assert_eq!(rt; pack(1, 1), 9);
    assert_eq!(rt; pack(2, 2), 18);
    assert_eq!(rt; pack(1 << 54, 7), (1 << 57) + 7);
    assert_eq!(rt; (turn_of(18), code_of(18)), (2, 2));
    assert_eq!(rt; (turn_of(8), code_of(8)), (1, 0));
}

#[test]
fn each_word_has_its_place(rt: HostRuntime) {
    assert_eq!(rt; ACTIVE_PLACE, 0);
    assert_eq!(rt; (wait_place(0), wait_place(3)), (1, 4));
    assert_eq!(rt; (grant_place(4, 0), grant_place(4, 3)), (5, 8));
    assert_eq!(rt; (done_place(4, 0), done_place(4, 3)), (9, 12));
    assert_eq!(rt; (user_place(4, 0), user_place(4, 7)), (13, 20));
}

#[test]
fn rooms_alone_have_no_words_and_no_slots(rt: HostRuntime) {
    assert_eq!(rt; Bare::ROOMS, 4);
    assert_eq!(rt; Bare.words(), 0);
    assert_eq!(rt; Bare.slots(), 0);
    assert_eq!(rt; Bare.start(0, 2), 0);
}

#[test]
fn the_theorems_hold_of_a_use() {
    the_table_follows_the_protocol::<Bare>();
}
