// Judges a MACROBLOCK command in its picture.
#![tactic(auto)]

mod judging;
mod placing;
mod progressing;
mod touching;

pub use judging::judge_macroblock;
pub use placing::{allowed_in, zero_vectors};
pub use progressing::{position_after, previous_of, stage_after};
pub use touching::field_of;
