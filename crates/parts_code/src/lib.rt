// Checks a batch that is handed over in parts.
#![tactic(auto)]

mod answering;
mod handing;
mod holding;

pub use answering::answer;
pub use handing::{begin, hand_over};
