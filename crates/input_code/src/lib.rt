// The line for an input that is handed over in pieces of bytes.
#![tactic(auto)]

mod answering;
mod handing;
mod holding;
mod numbers;
mod printing;
mod words;

pub use answering::answer;
pub use handing::{begin, hand_over};
