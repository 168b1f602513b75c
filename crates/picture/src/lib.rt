// What the SURFACE and PICTURE commands say, and the rules that they keep.
#![tactic(auto)]

use prediction::{Grid, Surface};

// What SURFACE says: the picture's size in samples, and the layout of its buffers.
#[derive(Clone, Copy, Default)]
pub struct Frame {
    pub width: u16,
    pub height: u16,
    pub surface: Surface,
}

// The f codes of one reference's vectors, for each component.
#[derive(Clone, Copy, Default)]
pub struct Codes {
    pub x: u8,
    pub y: u8,
}

// What PICTURE says: its coding type (1 I, 2 P, 3 B), the f codes of both references, its size in macroblocks, and whether every
// macroblock is predicted and transformed as a frame (bit 10 of word 1, under MPEG-2's name).
#[derive(Clone, Copy, Default)]
pub struct Picture {
    // A number and no enum: `picture_of` keeps what word 2 says and `stored_picture` what memory holds, legal or not.
    pub coding: u8,
    pub forward: Codes,
    pub backward: Codes,
    pub grid: Grid,
    pub frame_pred_frame_dct: bool,
}
