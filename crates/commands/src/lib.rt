// What words begin with: the next command of a batch.
#![tactic(auto)]

use headers::Header;

// A word that names no command; a command of which words are to come; or a whole one, with its header and its count of words. An enum of its
// own: that words are to come is no fault, so that a `Result` would need an enum for its errors beside a pair.
#[derive(Clone, Copy)]
pub enum NextCommand {
    Unknown,
    Incomplete,
    Whole(Header, usize),
}
