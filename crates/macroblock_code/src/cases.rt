// A macroblock's case as numbers, and back. Functions and no `From`: both types are of a crate of definitions, which declares no function.
ghost use Rattle.std.specs.Prelude.{◌≡◌, false};
ghost use Rattle.macroblock.specs.Cases.{motion, motion_of, case_of, is_field};
ghost use Rattle.macroblock.specs.Macroblocks.{is_intra};

use macroblock::{Case, Motion, Prediction};
use prediction_code::{vector_of, word_of};

// The kind and the vector words of a case.
#[tactic(auto, unfolding(macroblock::specs::Cases::motion_of))]
pub fn motion_of(case: Case) -> Motion
    ensures { result ≡ motion_of case }
{
    match case {
        Case::Intra => frame_motion(0, 0, 0),
        Case::Inter(Prediction::Forward(vector)) => frame_motion(1, word_of(vector), 0),
        Case::Inter(Prediction::Backward(vector)) => frame_motion(2, 0, word_of(vector)),
        Case::Inter(Prediction::Both(first, second)) => {
            frame_motion(3, word_of(first), word_of(second))
        }
        Case::Inter(Prediction::Field(top, bottom, top_from_bottom, bottom_from_bottom)) => {
            Motion {
                kind: 4,
                forward: word_of(top),
                backward: 0,
                bottom: word_of(bottom),
                top_from_bottom,
                bottom_from_bottom,
            }
        }
    }
}

// The numbers of a case that is not field predicted.
fn frame_motion(kind: u8, forward: u32, backward: u32) -> Motion
    ensures { result ≡ motion kind forward backward 0 false false }
{
    Motion {
        kind,
        forward,
        backward,
        bottom: 0,
        top_from_bottom: false,
        bottom_from_bottom: false,
    }
}

// The case of a kind, vector words and choices; intra for a kind that is none of 1 to 4.
#[tactic(auto, unfolding(macroblock::specs::Cases::case_of))]
pub fn case_of(motion: Motion) -> Case
    ensures { result ≡ case_of motion }
{
    let forward = motion.forward;
    let backward = motion.backward;
    let bottom = motion.bottom;
    match motion.kind {
        1 => Case::Inter(Prediction::Forward(vector_of(forward))),
        2 => Case::Inter(Prediction::Backward(vector_of(backward))),
        3 => Case::Inter(Prediction::Both(vector_of(forward), vector_of(backward))),
        4 => Case::Inter(Prediction::Field(
            vector_of(forward),
            vector_of(bottom),
            motion.top_from_bottom,
            motion.bottom_from_bottom,
        )),
        _ => Case::Intra,
    }
}

pub(crate) fn is_intra(case: Case) -> bool
    ensures { result ≡ is_intra case }
{
    matches!(case, Case::Intra)
}

pub(crate) fn is_field(case: Case) -> bool
    ensures { result ≡ is_field case }
{
    matches!(case, Case::Inter(Prediction::Field(..)))
}
