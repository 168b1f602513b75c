// An input from its beginning, and its next piece.
ghost use Rattle.std.specs.Prelude.{◌≡◌, ◌<◌, take};
ghost use mathlib.Core.List.{foldl};
ghost use Rattle.parts.specs.States.{walk_in};
ghost use Rattle.input.specs.Input.{head, body, feed, input_in, InputBegun, InputHanded};

use crate::{holding, numbers, words};
use input::Stream;
use parts::State;

// An input before its first byte.
pub fn begin() -> Stream
    ensures { InputBegun result }
{
    let check = None;
    Stream {
        check,
        held: 0,
        bytes: [0u8; 32],
    }
}

// A piece behind the first bytes of the lengths.
fn complete_lengths(old: [u8; 32], held: usize, piece: &[u8]) -> Stream
    requires { held < 32 }
    ensures { input_in result ≡ foldl feed (head (take held old)) piece.now }
{
    let need = 32 - held;
    if piece.len() < need {
        return Stream {
            check: None,
            held: held + piece.len(),
            bytes: lists_code::append(old, held, piece),
        };
    }
    let bytes = lists_code::append(old, held, &piece[..need]);
    let lengths = numbers::lengths_of(&bytes);
    words::from_word(parts_code::begin(lengths), &piece[need..])
}

// A piece behind the first bytes of a word.
fn complete_word(state: State, old: [u8; 32], held: usize, piece: &[u8]) -> Stream
    requires { held < 4 }
    ensures { input_in result ≡ foldl feed (body state.lengths (walk_in state) (take held old)) piece.now }
{
    let need = 4 - held;
    if piece.len() < need {
        let bytes = lists_code::append(old, held, piece);
        let held = held + piece.len();
        return holding::hold(state, &bytes[..held]);
    }
    let bytes = lists_code::append(old, held, &piece[..need]);
    let word = [numbers::word_at(&bytes, 0)];
    let next = parts_code::hand_over(state, &word);
    words::from_word(next, &piece[need..])
}

// The next piece, of any size.
pub fn hand_over(stream: Stream, piece: &[u8]) -> Stream
    ensures { InputHanded stream piece.now result }
{
    let Some(state) = stream.check else {
        let held = holding::held_bytes(stream, 32);
        return complete_lengths(stream.bytes, held, piece);
    };
    let held = holding::held_bytes(stream, 4);
    if held == 0 {
        return words::from_word(state, piece);
    }
    complete_word(state, stream.bytes, held, piece)
}
