// Answers of a check: accepted, or refused with a number and a place.
#![tactic(auto)]

// Why something is refused: document 01's number of the rule that is broken, and its place. A check answers `Result<(), Fault>`.
#[derive(Clone, Copy, PartialEq, Eq)]
pub struct Fault {
    pub number: u8,
    pub place: u64,
}
