// A MACROBLOCK command read, judged by its own rules, and written.
#![tactic(auto)]

mod cases;
mod reading;
mod rules;
mod writing;

pub use cases::{case_of, motion_of};
pub use reading::{flags_in, kind_in, macroblock_of};
pub use rules::{fault_of, kept_by};
pub use writing::{word2_of, words_of};
