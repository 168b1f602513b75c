// What the library for C answers, as numbers in structs, and its version. C has no `Result`: a number and a place stand beside the values,
// and these are zero in a refusal.
#![tactic(auto)]

use batch::Lengths;

// The answer to a batch: document 01's number and place, the four lengths that it reports and, of the same four buffers, the first
// touched bytes (hromulice_report in C).
#[repr(C)]
#[derive(Clone, Copy)]
pub struct Summary {
    pub number: u8,
    pub place: u64,
    pub lengths: Lengths,
    pub firsts: Lengths,
}

// The answer to one command or one record: document 01's number and place (hromulice_answer in C).
#[repr(C)]
#[derive(Clone, Copy)]
pub struct Outcome {
    pub number: u8,
    pub place: u64,
}

// The answer to asking for a mount sheet: number and place, and the sheet's edition and side, zeros where it is refused
// (hromulice_mount in C).
#[repr(C)]
#[derive(Clone, Copy)]
pub struct Mount {
    pub number: u8,
    pub place: u64,
    pub edition: u32,
    pub side: u8,
}

// The answer to adding a mount sheet: number and place, and how many sheets there are then (hromulice_mounts in C).
#[repr(C)]
#[derive(Clone, Copy)]
pub struct Mounts {
    pub number: u8,
    pub place: u64,
    pub count: u64,
}

// The vector of a measured shift: number and place, and its components, zeros where it is refused (hromulice_shift in C).
#[repr(C)]
#[derive(Clone, Copy)]
pub struct MountShift {
    pub number: u8,
    pub place: u64,
    pub x: i16,
    pub y: i16,
}
