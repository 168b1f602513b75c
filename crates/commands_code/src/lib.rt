// Cuts the next command off a run of words.
#![tactic(auto)]

mod cutting;

pub use cutting::{command_words, next_command};
