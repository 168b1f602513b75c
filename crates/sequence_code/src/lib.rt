// Judges one whole command: its place in the sequence, its rules, and how far the batch has come after it.
#![tactic(auto)]

mod judging;
mod stages;

pub use judging::judge;
