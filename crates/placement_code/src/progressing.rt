// How far a batch has come after a macroblock.
ghost use Rattle.std.specs.Prelude.{◌≡◌};
ghost use Rattle.placement.specs.Progressing.{position_after, stage_after, previous_of, extents_after, progress_after};

use headers_code::word_at;
use macroblock::{Flags, Macroblock};
use placement::Blocks;
use prediction::{Grid, Position};
use prediction_code::extents::join;
use progress::{Extents, Previous, Progress, Stage};

// The position after a position.
#[tactic(auto, unfolding(placement::specs::Progressing::position_after))]
pub fn position_after(grid: Grid, position: Position) -> Position
    ensures { result ≡ position_after grid position }
{
    let column = position.column;
    let row = position.row;
    if grid.rows <= row {
        position
    } else if column as u32 + 1 < grid.columns as u32 {
        Position {
            column: column + 1,
            row,
        }
    } else {
        Position {
            column: 0,
            row: row + 1,
        }
    }
}

// The stage after a macroblock with these flags.
#[tactic(auto, unfolding(placement::specs::Progressing::stage_after))]
pub fn stage_after(stage: Stage, flags: Flags) -> Stage
    ensures { result ≡ stage_after stage flags }
{
    Stage {
        in_group: !flags.last_in_group,
        group_start: false,
        in_slice: !flags.last_in_slice,
        ..stage
    }
}

// What a skipped macroblock has to repeat of the one before it, of this kind.
pub fn previous_of(kind: u8, words: &[u32]) -> Previous
    ensures { result ≡ previous_of kind words.now }
{
    Previous {
        kind,
        five: word_at(words, 5),
        six: word_at(words, 6),
        seven: word_at(words, 7),
        eight: word_at(words, 8),
    }
}

#[tactic(auto, unfolding(placement::specs::Progressing::extents_after))]
fn extents_after(extents: Extents, blocks: Blocks) -> Extents
    ensures { result ≡ extents_after extents blocks }
{
    let forward = join(extents.forward, blocks.forward.extent);
    Extents {
        source: join(extents.source, blocks.own),
        reconstructed: join(extents.reconstructed, blocks.own),
        forward: join(forward, blocks.bottom.extent),
        backward: join(extents.backward, blocks.backward.extent),
    }
}

// The progress after a macroblock with these blocks.
#[tactic(auto, unfolding(placement::specs::Progressing::progress_after))]
pub(crate) fn progress_after(
    progress: Progress,
    blocks: Blocks,
    macroblock: Macroblock,
    words: &[u32],
) -> Progress
    ensures { result ≡ progress_after progress blocks macroblock words.now }
{
    let kind = macroblock_code::motion_of(macroblock.case).kind;
    Progress {
        stage: stage_after(progress.stage, macroblock.flags),
        position: position_after(progress.picture.grid, progress.position),
        previous: previous_of(kind, words),
        extents: extents_after(progress.extents, blocks),
        ..progress
    }
}
