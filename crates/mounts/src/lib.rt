// Mount sheets by edition: which side of a boat a unit is mounted on, and so which sign a measured shift gets.
#![tactic(auto)]

use answers::Fault;

// A mount sheet: the unit's side on a boat (0 starboard, 1 port), by the boat's edition.
// A byte and no enum: what lent memory holds may be no side.
#[derive(Clone, Copy)]
pub struct Sheet {
    pub boat: u32,
    pub edition: u32,
    pub side: u8,
}

// The answer to adding, and how many sheets there are then. No Result of a count: it stands beside a refusal too.
#[derive(Clone, Copy)]
pub struct Added {
    pub answer: Result<(), Fault>,
    pub count: u64,
}

// A shift in half samples, x to the right and y down: as it was measured, or as a vector.
#[derive(Clone, Copy)]
pub struct Shift {
    pub x: i16,
    pub y: i16,
}
