// Bits of a 32-bit word, and numbers as little-endian bytes.
#![tactic(auto)]

// The two halves of a word.
#[derive(Clone, Copy)]
pub struct Halves {
    pub low: u16,
    pub high: u16,
}
