//! The words of the table: what the active word holds, and where each word is.
//!
//! For m rooms word 0 is the active word, words 1 + r count the tickets drawn for room r, words
//! 1 + m + r the tickets admitted, words 1 + 2m + r the callers that left, and words 1 + 3m + u
//! are the user words.
ghost use Rattle.std.specs.Prelude.{◌≡◌, ◌+◌, ◌^◌, ◌<◌};
ghost use Rattle.room_core.specs.declared.words.Word.TheVariants.{Wait, Grant, Done};
ghost use Rattle.room_core.specs.Active as active_word;
ghost use Rattle.room_core.specs.Words.{place};
ghost use Rattle.room_rule.specs.Use as layout;

/// The place of the active word.
pub const ACTIVE_PLACE: usize = 0;

/// The active word of a turn: code 0 is idle, and code r + 1 is room r. Turns are at most 2^54.
pub fn pack(turn: u64, code: u8) -> u64
    requires turn { turn < 2 ^ 60 }
    requires code { code < 8 }
    ensures { result ≡ active_word.pack turn code }
{
    8 * turn + code as u64
}

/// The turn of an active word.
pub fn turn_of(word: u64) -> u64
    ensures { result ≡ active_word.turn_of word }
{
    word / 8
}

/// The code of an active word: 0 is idle, and r + 1 is room r.
pub fn code_of(word: u64) -> u8
    ensures code { result ≡ active_word.code_of word }
    ensures few { result < 8 }
{
    (word % 8) as u8
}

/// The place of the word that counts the tickets drawn for a room.
pub fn wait_place(room: usize) -> usize
    requires { room < 8 }
    ensures { result ≡ place 0 (Wait room) }
{
    1 + room
}

/// The place of the word that counts the tickets admitted to a room.
pub fn grant_place(rooms: usize, room: usize) -> usize
    requires { (rooms < 8) × (room < 8) }
    ensures { result ≡ place rooms (Grant room) }
{
    1 + rooms + room
}

/// The place of the word that counts the callers that left a room.
pub fn done_place(rooms: usize, room: usize) -> usize
    requires { (rooms < 8) × (room < 8) }
    ensures { result ≡ place rooms (Done room) }
{
    1 + 2 * rooms + room
}

/// The place of a user word.
pub fn user_place(rooms: usize, word: usize) -> usize
    requires { (rooms < 8) × (word < 2 ^ 60) }
    ensures { result ≡ layout.user_place rooms word }
{
    1 + 3 * rooms + word
}
