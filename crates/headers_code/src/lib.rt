// Reads what a word begins, and a word of a command.
#![tactic(auto)]

mod reading;
mod words;

pub use reading::read_header;
pub use words::word_at;
