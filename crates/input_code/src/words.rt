// The words of a piece, handed over to the check.
ghost use Rattle.std.specs.Prelude.{◌≡◌, ◌*◌, ◌/◌, ◌%◌, ◌≤◌, length};
ghost use mathlib.Core.List.{[], foldl};
ghost use Rattle.parts.specs.States.{walk_in, Handed};
ghost use Rattle.input.specs.Line.{words_from};
ghost use Rattle.input.specs.Input.{body, feed, input_in};

use crate::{holding, numbers};
use input::Stream;
use parts::State;

// The words of some bytes, in a room of as many.
fn convert(bytes: &[u8], room: &mut [u32])
    requires { length room.old ≡ length bytes.now / 4 }
    ensures { room.new ≡ words_from bytes.now }
{
    for (i, word) in room.iter_mut().enumerate() {
        *word = numbers::word_at(bytes, 4 * i);
    }
}

// The words of some bytes, handed over.
fn hand_chunk(state: State, bytes: &[u8], room: &mut [u32]) -> State
    requires { length bytes.now ≤ 4 * length room.old }
    ensures { Handed state (words_from bytes.now) result }
{
    let words = &mut room[..bytes.len() / 4];
    convert(bytes, words);
    parts_code::hand_over(state, words)
}

// Room for the words that are converted at a time. A call, so that no proof meets 4096 zeros.
fn some_room() -> [u32; 4096]
    ensures { 4096 ≡ length result }
{
    [0u32; 4096]
}

// Whole words handed over, as many at a time as the room holds.
fn hand_words(state: State, words: &[u8]) -> State
    requires { length words.now % 4 ≡ 0 }
    ensures { Handed state (words_from words.now) result }
{
    let mut room = some_room();
    let mut next = state;
    for bytes in words.chunks(4 * room.len()) {
        next = hand_chunk(next, bytes, &mut room);
    }
    next
}

// A piece that begins with a word. The bytes behind its whole words are held.
pub(crate) fn from_word(state: State, piece: &[u8]) -> Stream
    ensures { input_in result ≡ foldl feed (body state.lengths (walk_in state) []) piece.now }
{
    if piece.len() < 4 {
        return holding::hold(state, piece);
    }
    let (words, rest) = piece.split_at(piece.len() - piece.len() % 4);
    holding::hold(hand_words(state, words), rest)
}
