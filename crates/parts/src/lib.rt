// The check of a batch that is handed over in parts.
#![tactic(auto)]

use answers::Fault;
use batch::Lengths;
use progress::Progress;

// A check under way. The command in progress begins at word `at`; the first `held` words of the buffer have come of it. A check
// that has stopped keeps its fault. Any value is taken: words that cannot be held so count as none.
// A buffer and a count beside it, since lent memory keeps both at their places and may have any content.
#[derive(Clone, Copy)]
pub struct State {
    pub progress: Progress,
    pub at: u32,
    pub held: usize,
    pub fault: Option<Fault>,
    pub lengths: Lengths,
    pub buffer: [u32; 61],
}
