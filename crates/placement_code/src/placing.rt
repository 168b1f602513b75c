// Whether a macroblock keeps the rules of its picture.
ghost use Rattle.std.specs.Prelude.{◌≡◌};
ghost use Rattle.answers.specs.Answers.{judged};
ghost use Rattle.placement.specs.Placing.{coding_permits, allowed_in, zero_vectors, repeats, skip_permitted, conversion_permitted, flags_agree, placed_rules};

use crate::progressing::previous_of;
use answers::Fault;
use answers_code::rule;
use headers_code::word_at;
use macroblock::{Allowed, Flags, Macroblock};
use picture::Picture;
use placement::Blocks;
use progress::{Previous, Progress};

fn coding_permits(coding: u8, kind: u8) -> bool
    ensures { result ≡ coding_permits coding kind }
{
    (kind == 0) | (((coding == 2) & ((kind == 1) | (kind == 4))) | (coding == 3))
}

// What a picture allows.
#[tactic(auto, unfolding(placement::specs::Placing::allowed_in))]
pub fn allowed_in(picture: Picture) -> Allowed
    ensures { result ≡ allowed_in picture }
{
    let fields = !picture.frame_pred_frame_dct;
    Allowed {
        dct_type: fields,
        field: fields & (picture.coding == 2),
    }
}

// Whether words 5 to 8 are zero.
pub fn zero_vectors(words: &[u32]) -> bool
    ensures { result ≡ zero_vectors words.now }
{
    let five = word_at(words, 5);
    let six = word_at(words, 6);
    let seven = word_at(words, 7);
    let eight = word_at(words, 8);
    ((five == 0) & (six == 0)) & ((seven == 0) & (eight == 0))
}

// Whether the macroblock before is inter with the same type and words.
fn repeats(before: Previous, kind: u8, words: &[u32]) -> bool
    ensures { result ≡ repeats before kind words.now }
{
    (1 <= before.kind) & (before == previous_of(kind, words))
}

fn skip_permitted(progress: Progress, kind: u8, words: &[u32]) -> bool
    ensures { result ≡ skip_permitted progress.picture.coding progress.previous kind words.now }
{
    let coding = progress.picture.coding;
    let zero = zero_vectors(words);
    let repeated = repeats(progress.previous, kind, words);
    ((coding != 2) | zero) & ((coding != 3) | repeated)
}

fn flags_agree(progress: Progress, flags: Flags) -> bool
    ensures { result ≡ flags_agree progress.stage progress.picture.grid progress.position flags }
{
    let stage = progress.stage;
    let grid = progress.picture.grid;
    let position = progress.position;
    let last_column = position.column as u32 + 1 == grid.columns as u32;
    let slice_begins = flags.first_in_slice == !stage.in_slice;
    let group_begins = flags.first_in_group == stage.group_start;
    let slice_ends = !last_column | flags.last_in_slice;
    let group_ends = !flags.last_in_group | flags.last_in_slice;
    (slice_begins & slice_ends) & (group_begins & group_ends)
}

fn conversion_permitted(coding: u8, flags: Flags) -> bool
    ensures { result ≡ conversion_permitted coding flags }
{
    (coding != 1) | !flags.no_skip_conversion
}

// The first rule of its picture that a macroblock with these blocks breaks, with its word as the place. What it takes `progress_after` takes too;
// a struct for these two calls would be longer.
pub(crate) fn placed_fault(
    progress: Progress,
    blocks: Blocks,
    macroblock: Macroblock,
    words: &[u32],
) -> Result<(), Fault>
    ensures { result ≡ judged (placed_rules progress blocks macroblock words.now) }
{
    let coding = progress.picture.coding;
    let at = progress.position;
    let flags = macroblock.flags;
    let kind = macroblock_code::motion_of(macroblock.case).kind;
    let in_sequence = progress.stage.in_group & (at.row < progress.picture.grid.rows);
    let skip = !macroblock.skip | skip_permitted(progress, kind, words);
    let here = (macroblock.column == at.column) & (macroblock.row == at.row);
    rule(3, 0, in_sequence)
        .and(rule(5, 1, coding_permits(coding, kind)))
        .and(rule(11, 1, skip))
        .and(rule(6, 2, here))
        .and(rule(5, 4, conversion_permitted(coding, flags)))
        .and(rule(7, 4, flags_agree(progress, flags)))
        .and(rule(9, 5, blocks.forward.in_range))
        .and(rule(10, 5, blocks.forward.inside))
        .and(rule(9, 6, blocks.backward.in_range))
        .and(rule(10, 6, blocks.backward.inside))
        .and(rule(9, 7, blocks.bottom.in_range))
        .and(rule(10, 7, blocks.bottom.inside))
}
