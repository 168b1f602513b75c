// The progress before the first word.
#![tactic(auto)]

ghost use Rattle.std.specs.Prelude.{◌≡◌};
ghost use Rattle.progress.specs.Progress.{fresh};

use picture::{Frame, Picture};
use prediction::Position;
use prediction_code::extents;
use progress::{Extents, Previous, Progress, Stage};

// Before the first word. A picture's bit 10 counts as set until there is one. Frame and picture are no `Option`s, though the stage says which
// have come: lent memory keeps each by itself (`stored_progress`).
#[tactic(auto, unfolding(progress::specs::Progress::fresh))]
pub fn fresh() -> Progress
    ensures { result ≡ fresh }
{
    let none = extents::empty();
    Progress {
        stage: Stage::default(),
        frame: Frame::default(),
        picture: Picture {
            frame_pred_frame_dct: true,
            ..Picture::default()
        },
        position: Position::default(),
        previous: Previous::default(),
        extents: Extents {
            source: none,
            reconstructed: none,
            forward: none,
            backward: none,
        },
    }
}
