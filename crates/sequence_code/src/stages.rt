// The progress after commands that are no macroblocks. A function for each: they set different fields, and a field is no parameter.
ghost use Rattle.std.specs.Prelude.{◌≡◌};
ghost use Rattle.sequence.specs.Sequence.{surface_next, picture_next, group_next, end_next};

use picture::{Frame, Picture};
use progress::{Progress, Stage};

#[tactic(auto, unfolding(sequence::specs::Sequence::surface_next))]
pub(crate) fn surface_next(progress: Progress, frame: Frame) -> Progress
    ensures { result ≡ surface_next progress frame }
{
    Progress {
        stage: Stage {
            surfaced: true,
            ..progress.stage
        },
        frame,
        ..progress
    }
}

#[tactic(auto, unfolding(sequence::specs::Sequence::picture_next))]
pub(crate) fn picture_next(progress: Progress, picture: Picture) -> Progress
    ensures { result ≡ picture_next progress picture }
{
    Progress {
        stage: Stage {
            pictured: true,
            ..progress.stage
        },
        picture,
        ..progress
    }
}

#[tactic(auto, unfolding(sequence::specs::Sequence::group_next))]
pub(crate) fn group_next(progress: Progress) -> Progress
    ensures { result ≡ group_next progress }
{
    Progress {
        stage: Stage {
            grouped: true,
            in_group: true,
            group_start: true,
            ..progress.stage
        },
        ..progress
    }
}

#[tactic(auto, unfolding(sequence::specs::Sequence::end_next))]
pub(crate) fn end_next(progress: Progress) -> Progress
    ensures { result ≡ end_next progress }
{
    Progress {
        stage: Stage {
            ended: true,
            ..progress.stage
        },
        ..progress
    }
}
