// Decodes a batch to its log.
#![tactic(auto)]

mod whole;
mod writing;

pub use whole::decode;
