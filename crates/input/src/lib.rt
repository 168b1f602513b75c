// The program's input, handed over in pieces of bytes, and its line.
#![tactic(auto)]

use parts::State;

// An input under way. Until its 32 bytes of lengths have come there is no check, and the first `held` bytes are those that have;
// afterwards they are the bytes of an unfinished word, and `check` is that of the whole words. Any value is taken: bytes that cannot be
// held so count as none (`held_of`), and there is no heap for a `Vec`.
#[derive(Clone, Copy)]
pub struct Stream {
    pub check: Option<State>,
    pub held: usize,
    pub bytes: [u8; 32],
}

// A line: the first `len` bytes. The others are zero. No model hides them, since `zeros_behind` (proofs/Worked.antt) speaks of all 256.
#[derive(Clone, Copy)]
pub struct OutputLine {
    pub bytes: [u8; 256],
    pub len: usize,
}
