// Vectors of the macroblocks of one line, judged by numbers that are made once for the line. A component b stands for
// b - 32768 half samples.
ghost use Rattle.std.specs.Prelude.{◌≡◌, ◌+◌, ◌-◌, ◌*◌, ◌^◌, ◌<◌, ◌≤◌, min, ◌&&◌, nat_le};
ghost use Rattle.std.proofs.Math.IntN.{sub_ℕ};
ghost use Rattle.prediction.specs.Vectors.{vector_of};
ghost use Rattle.prediction.specs.Addresses.{luma};
ghost use Rattle.prediction.specs.Structures.{rows_in};
ghost use Rattle.prediction.specs.Lines.{line_in, in_line, vector_in_lines, reach_of, floor_of};

use crate::addresses::address;
use crate::blocks::Displaced;
use crate::spans;
use crate::structures::{luma_rows, row_of};
use crate::vectors::vector_of;
use prediction::{Line, Position, Structure, Surface};

// The limit of an f code whose power is one less, for blocks of a size.
fn limit_of(size: u8, power: u8) -> u32
    requires { (1 ≤ size) × (size ≤ 16) }
    ensures { (result ≡ min 32768 (size * 2 ^ power)) × (1 ≤ result) × (result ≤ 32768) }
{
    if 16 <= power {
        return 32768;
    }
    ((size as u32) << power).min(32768)
}

// The line of n rows of macroblocks under an f code, in rows of a structure; of columns it is the frame's.
#[tactic(auto, unfolding(prediction::specs::Lines::line_in, prediction::specs::Lines::line_of))]
pub fn line_of(structure: Structure, n: u16, code: u8) -> Line
    ensures { result ≡ line_in structure n code }
{
    let limit = limit_of(luma_rows(structure), code.saturating_sub(1));
    let low = (32768 - limit) as u16;
    let span = (2 * limit - 1) as u16;
    let last = n.saturating_sub(1);
    Line { low, span, last }
}

// Whether the component b - 32768 keeps the line. A difference that wraps is larger than any that is allowed.
#[inline(always)]
fn in_line(size: u8, line: Line, place: u16, b: u16) -> bool
    requires { size ≤ 16 }
    ensures { result ≡ in_line size line place (sub_ℕ b 32768) }
{
    let b = b as u32;
    if (line.span as u32) < b.wrapping_sub(line.low as u32) {
        return false;
    }
    let start = 2 * (size as u32 * place as u32) + b;
    start.wrapping_sub(32768) <= 2 * (size as u32 * line.last as u32)
}

// Whether the vector of a word keeps the lines of its column and its row. A column and a row and no `Position`: callers count the one and keep
// the other, and the definition takes the two.
#[tactic(auto, unfolding(prediction::specs::Lines::vector_in_lines), using(prediction::proofs::TwosComplement::read_back))]
pub fn vector_in_lines(
    structure: Structure,
    x: Line,
    y: Line,
    column: u16,
    row: u16,
    word: u32,
) -> bool
    ensures { result ≡ vector_in_lines structure x y column row word }
{
    let vector = vector_of(word);
    if !in_line(16, x, column, spans::biased(vector.x)) {
        return false;
    }
    in_line(luma_rows(structure), y, row, spans::biased(vector.y))
}

// The end of the block that the vector of a word displaces, 0 where it starts before the picture: 0 and no `Option`, here and in `reach_first`,
// since the promise is `reach_of`, which has the empty extent there.
#[inline(always)]
pub fn reach_end(structure: Structure, surface: Surface, position: Position, word: u32) -> u64
    ensures { result ≡ (reach_of structure surface position word).end }
{
    let Some(block) = Displaced::new(structure, position, vector_of(word)) else {
        return 0;
    };
    block.end(surface)
}

// The first byte of the same block, 0 where it starts before the picture.
pub fn reach_first(structure: Structure, surface: Surface, position: Position, word: u32) -> u64
    ensures { result ≡ (reach_of structure surface position word).first }
{
    match Displaced::new(structure, position, vector_of(word)) {
        Some(block) => block.first(surface),
        None => 0,
    }
}

// The byte before which no block of a macroblock at this column or further right begins, in its row, whose vector's x and y are left - 32768
// and low - 32768 or more.
#[tactic(auto, unfolding(prediction::specs::Lines::floor_of))]
pub fn floor_of(
    structure: Structure,
    surface: Surface,
    column: u16,
    left: u16,
    row: u16,
    low: u16,
) -> u64
    ensures { (result ≡ floor_of structure surface column left row low) × (result < 9223372036854775808) }
{
    let pitch = surface.pitch;
    let x = (32 * column as u32 + left as u32).saturating_sub(32768);
    let size = luma_rows(structure) as u32;
    let y = (2 * (size * row as u32) + low as u32).saturating_sub(32768);
    if pitch < 16 {
        return 0;
    }
    let luma = address(pitch, x / 2, row_of(structure, y / 2));
    let chroma = address(pitch, 0, surface.chroma_row as u32);
    luma.min(chroma)
}

// The lower of a first byte and that of the block that the vector of a word displaces.
pub fn first_with(
    first: u64,
    structure: Structure,
    surface: Surface,
    position: Position,
    word: u32,
) -> u64
    ensures { result ≡ min first (reach_of structure surface position word).first }
{
    first.min(reach_first(structure, surface, position, word))
}
