// SURFACE and PICTURE read, and judged by their own rules.
#![tactic(auto)]

mod pictures;
mod surfaces;

pub use pictures::{picture_fault, picture_of};
pub use surfaces::{surface_fault, surface_of};
