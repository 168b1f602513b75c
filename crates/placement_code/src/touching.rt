// What a macroblock touches.
ghost use Rattle.std.specs.Prelude.{◌≡◌};
ghost use Rattle.prediction.specs.Blocks.{block_at};
ghost use Rattle.prediction.specs.Vectors.{still};
ghost use Rattle.prediction.specs.declared.Structure.TheVariants.{Frame};
ghost use Rattle.placement.specs.Blocks.{field_of, forward_of, backward_of, bottom_of, extent_in, predicted_in, predicted, blocks_of};

use macroblock::{Case, Prediction};
use picture::Codes;
use placement::{Blocks, Predicted};
use prediction::{Extent, Structure, Vector};
use prediction_code::{block_at, extents, vector_in_range};
use progress::Progress;

// The field that is chosen. A function and no `From`: the type is of a crate of definitions, which declares no function.
pub fn field_of(bottom: bool) -> Structure
    ensures { result ≡ field_of bottom }
{
    if bottom {
        Structure::BottomField
    } else {
        Structure::TopField
    }
}

#[tactic(auto, unfolding(placement::specs::Blocks::forward_of))]
fn forward_of(case: Case) -> Option<(Structure, Vector)>
    ensures { result ≡ forward_of case }
{
    match case {
        Case::Inter(Prediction::Forward(vector) | Prediction::Both(vector, _)) => {
            Some((Structure::Frame, vector))
        }
        Case::Inter(Prediction::Field(vector, _, bottom, _)) => Some((field_of(bottom), vector)),
        _ => None,
    }
}

#[tactic(auto, unfolding(placement::specs::Blocks::backward_of))]
fn backward_of(case: Case) -> Option<(Structure, Vector)>
    ensures { result ≡ backward_of case }
{
    match case {
        Case::Inter(Prediction::Backward(vector) | Prediction::Both(_, vector)) => {
            Some((Structure::Frame, vector))
        }
        _ => None,
    }
}

#[tactic(auto, unfolding(placement::specs::Blocks::bottom_of))]
fn bottom_of(case: Case) -> Option<(Structure, Vector)>
    ensures { result ≡ bottom_of case }
{
    match case {
        Case::Inter(Prediction::Field(_, vector, _, bottom)) => Some((field_of(bottom), vector)),
        _ => None,
    }
}

fn predicted_in(in_range: bool, block: Option<Extent>) -> Predicted
    ensures { result ≡ predicted_in in_range block }
{
    Predicted {
        in_range,
        inside: block.is_some(),
        extent: block.unwrap_or(extents::empty()),
    }
}

// The block that a macroblock after this progress is predicted from in one reference.
#[tactic(auto, unfolding(placement::specs::Blocks::predicted))]
fn predicted(progress: Progress, codes: Codes, reference: Option<(Structure, Vector)>) -> Predicted
    ensures { result ≡ predicted progress.frame.surface progress.picture.grid progress.position codes reference }
{
    let Some((structure, vector)) = reference else {
        return Predicted {
            in_range: true,
            inside: true,
            extent: extents::empty(),
        };
    };
    let surface = progress.frame.surface;
    let grid = progress.picture.grid;
    let in_range = vector_in_range(structure, vector, codes.x, codes.y);
    let block = block_at(structure, surface, grid, progress.position, vector);
    predicted_in(in_range, block)
}

// The samples of the next macroblock itself.
fn own_extent(progress: Progress) -> Extent
    ensures { result ≡ extent_in (block_at Frame progress.frame.surface progress.picture.grid progress.position still) }
{
    let surface = progress.frame.surface;
    let grid = progress.picture.grid;
    let zero = Vector { x: 0, y: 0 };
    block_at(Structure::Frame, surface, grid, progress.position, zero).unwrap_or(extents::empty())
}

// What the next macroblock touches if it is coded like this.
#[tactic(auto, unfolding(placement::specs::Blocks::blocks_of))]
pub(crate) fn blocks_of(progress: Progress, case: Case) -> Blocks
    ensures { result ≡ blocks_of progress case }
{
    let picture = progress.picture;
    Blocks {
        own: own_extent(progress),
        forward: predicted(progress, picture.forward, forward_of(case)),
        backward: predicted(progress, picture.backward, backward_of(case)),
        bottom: predicted(progress, picture.forward, bottom_of(case)),
    }
}
