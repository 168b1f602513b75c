// Reads the state of a check in parts from lent words, and stores it there.
#![tactic(auto)]

mod places;
mod reading;
mod storing;

pub use reading::state_in;
pub use storing::state_words;
