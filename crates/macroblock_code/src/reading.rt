// Reading the words of a MACROBLOCK command.
ghost use Rattle.std.specs.Prelude.{◌≡◌};
ghost use Rattle.macroblock.specs.Macroblocks.{kind_in, flags_in, motion_in, macroblock_of};

use crate::cases::case_of;
use fields_code::{bits, is_set};
use headers_code::word_at;
use macroblock::{Flags, Macroblock, Motion};

// The kind that word 1 gives, a number that is no kind among them.
pub fn kind_in(word1: u32) -> u8
    ensures { result ≡ kind_in word1 }
{
    if is_set(word1, 13) {
        0
    } else {
        bits(word1, 12, 8) as u8
    }
}

// The kind, the words that hold the vectors, and the choices of word 4.
pub(crate) fn motion_in(words: &[u32]) -> Motion
    ensures { result ≡ motion_in words.now }
{
    let word4 = word_at(words, 4);
    Motion {
        kind: kind_in(word_at(words, 1)),
        forward: word_at(words, 5),
        backward: word_at(words, 6),
        bottom: word_at(words, 7),
        top_from_bottom: is_set(word4, 16),
        bottom_from_bottom: is_set(word4, 18),
    }
}

// The flags of word 4.
pub fn flags_in(word4: u32) -> Flags
    ensures { result ≡ flags_in word4 }
{
    Flags {
        first_in_slice: is_set(word4, 30),
        last_in_slice: is_set(word4, 31),
        first_in_group: is_set(word4, 24),
        last_in_group: is_set(word4, 26),
        clamp: is_set(word4, 27),
        no_skip_conversion: is_set(word4, 25),
    }
}

// The macroblock of a command's words, legal or not.
#[tactic(auto, unfolding(macroblock::specs::Macroblocks::macroblock_of))]
pub fn macroblock_of(words: &[u32]) -> Macroblock
    ensures { result ≡ macroblock_of words.now }
{
    let one = word_at(words, 1);
    let two = word_at(words, 2);
    let three = word_at(words, 3);
    let four = word_at(words, 4);
    Macroblock {
        column: bits(two, 15, 0) as u16,
        row: bits(two, 31, 16) as u16,
        upper: bits(one, 31, 16) as u16,
        case: case_of(motion_in(words)),
        skip: is_set(one, 2),
        dct_type: is_set(one, 15),
        pattern: bits(three, 11, 6) as u8,
        max_size: bits(three, 31, 24) as u8,
        target_size: bits(three, 23, 16) as u8,
        quantiser: bits(four, 4, 0) as u8,
        flags: flags_in(four),
    }
}
