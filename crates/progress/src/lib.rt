// How far a batch has come, as the rules of its next command read it.
#![tactic(auto)]

use picture::{Frame, Picture};
use prediction::{Extent, Position};

// Which commands have come. A group is open from its SLICEGROUP to LastMbInSG, a slice from its first macroblock to its last;
// group_start holds from SLICEGROUP to the group's first macroblock.
#[derive(Clone, Copy, Default)]
pub struct Stage {
    pub surfaced: bool,
    pub pictured: bool,
    pub grouped: bool,
    pub in_group: bool,
    pub group_start: bool,
    pub in_slice: bool,
    pub ended: bool,
}

// What a rule reads of the macroblock before: its kind (0 for intra, and before the first) and words 5 to 8.
#[derive(Clone, Copy, Default, PartialEq, Eq)]
pub struct Previous {
    // A number and no enum: `stored_previous` keeps what memory holds, legal or not.
    pub kind: u8,
    pub five: u32,
    pub six: u32,
    pub seven: u32,
    pub eight: u32,
}

// What is touched of the four picture buffers (document 01's 0 source, 1 reconstructed, 2 forward and 3 backward reference).
#[derive(Clone, Copy)]
pub struct Extents {
    pub source: Extent,
    pub reconstructed: Extent,
    pub forward: Extent,
    pub backward: Extent,
}

// How far a batch has come. The position is that of the next macroblock: its row is H when all have come.
#[derive(Clone, Copy)]
pub struct Progress {
    pub stage: Stage,
    pub frame: Frame,
    pub picture: Picture,
    pub position: Position,
    pub previous: Previous,
    pub extents: Extents,
}

// What words came to: how many of them were taken, as whole commands, and how far the batch has come with them.
#[derive(Clone, Copy)]
pub struct Taken {
    pub progress: Progress,
    pub used: usize,
}
