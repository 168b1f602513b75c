// What the check of a batch of commands answers.
#![tactic(auto)]

use answers::Fault;
use progress::Extents;

// The lengths in bytes of the four picture buffers that a batch is checked with.
#[repr(C)]
#[derive(Clone, Copy)]
pub struct Lengths {
    pub source: u64,
    pub reconstructed: u64,
    pub forward: u64,
    pub backward: u64,
}

// What is reported of a batch that keeps every rule but the one on buffer length: what it touches of each buffer.
#[derive(Clone, Copy)]
pub struct Reported {
    pub extents: Extents,
}

// As how many numbers: document 01's four lengths, and document 02's four first bytes (R-8).
pub const VALUES: usize = 8;

// Why a batch is refused: a rule of its commands is broken, and nothing is reported; or lent memory is too short, and what is reported
// stands beside it. The checker answers `Result<Reported, Refusal>`.
#[derive(Clone, Copy)]
pub enum Refusal {
    Broken(Fault),
    Short(Fault, Reported),
}
