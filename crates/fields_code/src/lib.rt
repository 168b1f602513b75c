// Bits of a 32-bit word, and numbers as little-endian bytes. No other crate takes a word apart into fields, or
// puts one together from them.
#![tactic(auto)]

mod little_endian;
mod word;

pub use little_endian::{bytes16, bytes32, number16, number32};
pub use word::{bits, flag_of, halves_of, has_bits, is_set, with_bits, with_flag, word_of_halves};
