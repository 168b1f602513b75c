// Vectors in their words, their range, and what their blocks touch. No other crate computes with half samples, chroma halves
// or byte addresses.
#![tactic(auto)]

mod addresses;
mod blocks;
pub mod extents;
mod lines;
mod ranges;
mod spans;
mod structures;
mod vectors;

pub use blocks::block_at;
pub use lines::{first_with, floor_of, line_of, reach_end, reach_first, vector_in_lines};
pub use ranges::vector_in_range;
pub use vectors::{vector_of, word_of};
