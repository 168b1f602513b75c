// The state of a check in parts as words of memory, so that a caller who lends them need not know its fields.
#![tactic(auto)]

// How many: more than the state has, so that it can get fields without another size.
pub const WORDS: usize = 128;
