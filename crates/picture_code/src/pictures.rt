// The words of a PICTURE command.
ghost use Rattle.std.specs.Prelude.{◌≡◌};
ghost use Rattle.answers.specs.Answers.{judged};
ghost use Rattle.picture.specs.Pictures.{picture_of, code_in_use, in_use, unused, codes_permitted, fits, size_permitted, picture_bits1, picture_rules};

use answers::Fault;
use answers_code::rule;
use fields_code::{bits, has_bits, is_set};
use headers_code::word_at;
use picture::{Codes, Frame, Picture};
use prediction::Grid;

// What a command's words say, legal or not.
#[tactic(auto, unfolding(picture::specs::Pictures::picture_of))]
pub fn picture_of(words: &[u32]) -> Picture
    ensures { result ≡ picture_of words.now }
{
    let one = word_at(words, 1);
    let two = word_at(words, 2);
    let three = word_at(words, 3);
    let forward = Codes {
        x: bits(one, 19, 16) as u8,
        y: bits(one, 23, 20) as u8,
    };
    let backward = Codes {
        x: bits(one, 27, 24) as u8,
        y: bits(one, 31, 28) as u8,
    };
    let grid = Grid {
        columns: (bits(three, 7, 0) + 1) as u16,
        rows: (bits(three, 23, 16) + 1) as u16,
    };
    Picture {
        coding: bits(two, 10, 9) as u8,
        forward,
        backward,
        grid,
        frame_pred_frame_dct: is_set(one, 10),
    }
}

// Whether the bits of word 1 that have one value have it.
fn picture_bits1(one: u32) -> bool
    ensures { result ≡ picture_bits1 one }
{
    let upper = has_bits(one, 13, 12, 3);
    let lower = has_bits(one, 9, 9, 0) & has_bits(one, 5, 0, 0);
    upper & lower
}

// Whether an f code, and both of a reference, are those of one that is used.
fn code_in_use(code: u8) -> bool
    ensures { result ≡ code_in_use code }
{
    (1 <= code) & (code <= 9)
}

fn in_use(codes: Codes) -> bool
    ensures { result ≡ in_use codes }
{
    code_in_use(codes.x) & code_in_use(codes.y)
}

// Whether both are those of a reference that is not used.
fn unused(codes: Codes) -> bool
    ensures { result ≡ unused codes }
{
    (codes.x == 15) & (codes.y == 15)
}

// Whether the type is one of the three, and the f codes are the type's.
fn codes_permitted(picture: Picture) -> bool
    ensures { result ≡ codes_permitted picture.coding picture.forward picture.backward }
{
    let coding = picture.coding;
    let forward_in_use = in_use(picture.forward);
    let forward_unused = unused(picture.forward);
    let backward_in_use = in_use(picture.backward);
    let backward_unused = unused(picture.backward);
    let i = (coding == 1) & (forward_unused & backward_unused);
    let p = (coding == 2) & (forward_in_use & backward_unused);
    let b = (coding == 3) & (forward_in_use & backward_in_use);
    i | (p | b)
}

// Whether a number of macroblocks is the least that covers the samples.
fn fits(samples: u16, macroblocks: u16) -> bool
    ensures { result ≡ fits samples macroblocks }
{
    let size = samples as u32;
    let count = macroblocks as u32;
    if count == 0 {
        return false;
    }
    (16 * (count - 1) < size) & (size <= 16 * count)
}

// Whether the picture has the surface's size, and the surface has room for its macroblocks.
fn size_permitted(frame: Frame, grid: Grid) -> bool
    ensures { result ≡ size_permitted frame grid }
{
    let columns = 16 * (grid.columns as u32);
    let rows = 16 * (grid.rows as u32);
    let covered = fits(frame.width, grid.columns) & fits(frame.height, grid.rows);
    let room = (columns <= frame.surface.pitch) & (rows <= (frame.surface.chroma_row as u32));
    (grid.rows <= 175) & (covered & room)
}

// The first rule that a PICTURE command breaks on its surface, with its word as the place.
#[tactic(auto, unfolding(picture::specs::Pictures::picture_rules), using(answers::proofs::Judging::in_turn))]
pub fn picture_fault(frame: Frame, words: &[u32]) -> Result<(), Fault>
    ensures { result ≡ judged (picture_rules frame words.now) }
{
    let picture = picture_of(words);
    let bits1 = picture_bits1(word_at(words, 1));
    rule(4, 1, bits1)
        .and(rule(5, 2, codes_permitted(picture)))
        .and(rule(5, 3, size_permitted(frame, picture.grid)))
}
