// The progress after commands of a row: what it is made of depends on the last of them alone, but for what is touched of the references.
ghost use Rattle.std.specs.Prelude.{◌≡◌};
ghost use Rattle.rows.specs.Rows.{extents_next, after_row};

use prediction::{Extent, Position, Structure};
use prediction_code::extents;
use progress::{Extents, Progress};

fn extents_next(progress: Progress, column: u16, forward: Extent, backward: Extent) -> Extents
    ensures { result ≡ extents_next progress column forward backward }
{
    let surface = progress.frame.surface;
    let position = progress.position;
    let last = Position { column, ..position };
    let first = prediction_code::reach_first(Structure::Frame, surface, position, 0);
    let end = prediction_code::reach_end(Structure::Frame, surface, last, 0);
    let own = Extent { first, end };
    let source = extents::join(progress.extents.source, own);
    let reconstructed = extents::join(progress.extents.reconstructed, own);
    Extents {
        source,
        reconstructed,
        forward,
        backward,
    }
}

// The progress after commands of a row, of which the last is this one, at this column.
#[tactic(auto, unfolding(rows::specs::Rows::after_row))]
pub(crate) fn after_row(
    progress: Progress,
    column: u16,
    forward: Extent,
    backward: Extent,
    words: &[u32],
) -> Progress
    ensures { result ≡ after_row progress column forward backward words.now }
{
    let kind = macroblock_code::kind_in(headers_code::word_at(words, 1));
    let flags = macroblock_code::flags_in(headers_code::word_at(words, 4));
    let at = Position {
        column,
        ..progress.position
    };
    let stage = placement_code::stage_after(progress.stage, flags);
    let position = placement_code::position_after(progress.picture.grid, at);
    let previous = placement_code::previous_of(kind, words);
    let extents = extents_next(progress, column, forward, backward);
    Progress {
        stage,
        position,
        previous,
        extents,
        ..progress
    }
}
