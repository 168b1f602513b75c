// The bytes that are held of the lengths, or of a word.
ghost use Rattle.std.specs.Prelude.{◌≡◌, ◌≤◌, ◌<◌, length, take};
ghost use Rattle.parts.specs.States.{walk_in};
ghost use Rattle.input.specs.Input.{body, held_of, input_in};

use input::Stream;
use parts::State;

// How many bytes are held, where they are to be fewer than `most`.
pub(crate) fn held_bytes(stream: Stream, most: usize) -> usize
    requires { (1 ≤ most) × (most ≤ 32) }
    ensures { (held_of most stream ≡ take result stream.bytes) × ((result ≡ length (held_of most stream)) × (result < most)) }
{
    let held = stream.held;
    if most <= held {
        return 0;
    }
    held
}

// After whole words, some bytes of the next.
pub(crate) fn hold(state: State, rest: &[u8]) -> Stream
    requires { length rest.now < 4 }
    ensures { input_in result ≡ body state.lengths (walk_in state) rest.now }
{
    Stream {
        check: Some(state),
        held: rest.len(),
        bytes: lists_code::append([0u8; 32], 0, rest),
    }
}
