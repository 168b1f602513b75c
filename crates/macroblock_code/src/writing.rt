// Writing the words of a MACROBLOCK command.
ghost use Rattle.std.specs.Prelude.{◌≡◌};
ghost use Rattle.fields.specs.Word.{packed};
ghost use Rattle.macroblock.specs.Cases.{vector_words};
ghost use Rattle.macroblock.specs.Macroblocks.{type_of, fields1, fields2, fields3, fields4, words_of};

use crate::cases::motion_of;
use fields_code::{flag_of, with_bits, with_flag};
use headers::MACROBLOCK_HEADER;
use macroblock::{Macroblock, Motion};

// Words 5 to 8.
#[tactic(auto, unfolding(macroblock::specs::Cases::vector_words))]
pub(crate) fn vector_words(motion: Motion) -> [u32; 4]
    ensures { result ≡ vector_words motion }
{
    let forward = motion.forward;
    let backward = motion.backward;
    let bottom = motion.bottom;
    match motion.kind {
        1 => [forward, forward, forward, forward],
        2 => [backward, backward, backward, backward],
        3 => [forward, backward, forward, backward],
        4 => [forward, forward, bottom, forward],
        _ => [0, 0, 0, 0],
    }
}

// The type in word 1.
fn type_of(kind: u8) -> u32
    ensures { result ≡ type_of kind }
{
    if kind == 0 { 0x1a } else { kind as u32 }
}

fn word1_of(kind: u8, macroblock: Macroblock) -> u32
    ensures { result ≡ packed (fields1 macroblock.upper kind macroblock.skip macroblock.dct_type) }
{
    let fields = flag_of(kind == 4);
    let to1 = with_bits(0, 1, 0, fields);
    let to2 = with_flag(to1, 2, macroblock.skip);
    let to12 = with_bits(to2, 12, 8, type_of(kind));
    let to13 = with_flag(to12, 13, kind == 0);
    let to14 = with_bits(to13, 14, 14, fields);
    let to15 = with_flag(to14, 15, macroblock.dct_type);
    with_bits(to15, 31, 16, macroblock.upper as u32)
}

// Word 2 of a macroblock at this column and row.
pub fn word2_of(column: u16, row: u16) -> u32
    ensures { result ≡ packed (fields2 column row) }
{
    let to15 = with_bits(0, 15, 0, column as u32);
    with_bits(to15, 31, 16, row as u32)
}

fn word3_of(macroblock: Macroblock) -> u32
    ensures { result ≡ packed (fields3 macroblock) }
{
    let to11 = with_bits(0, 11, 6, macroblock.pattern as u32);
    let to23 = with_bits(to11, 23, 16, macroblock.target_size as u32);
    with_bits(to23, 31, 24, macroblock.max_size as u32)
}

fn word4_of(choices: Motion, macroblock: Macroblock) -> u32
    ensures { result ≡ packed (fields4 choices macroblock) }
{
    let flags = macroblock.flags;
    let to4 = with_bits(0, 4, 0, macroblock.quantiser as u32);
    let to16 = with_flag(to4, 16, choices.top_from_bottom);
    let to18 = with_flag(to16, 18, choices.bottom_from_bottom);
    let to24 = with_flag(to18, 24, flags.first_in_group);
    let to25 = with_flag(to24, 25, flags.no_skip_conversion);
    let to26 = with_flag(to25, 26, flags.last_in_group);
    let to27 = with_flag(to26, 27, flags.clamp);
    let to30 = with_flag(to27, 30, flags.first_in_slice);
    with_flag(to30, 31, flags.last_in_slice)
}

// The nine words of a macroblock's command.
#[tactic(auto, unfolding(macroblock::specs::Macroblocks::words_of))]
pub fn words_of(macroblock: Macroblock) -> [u32; 9]
    ensures { result ≡ words_of macroblock }
{
    let motion = motion_of(macroblock.case);
    let [five, six, seven, eight] = vector_words(motion);
    [
        MACROBLOCK_HEADER,
        word1_of(motion.kind, macroblock),
        word2_of(macroblock.column, macroblock.row),
        word3_of(macroblock),
        word4_of(motion, macroblock),
        five,
        six,
        seven,
        eight,
    ]
}
