// Motion vectors, the samples they predict from, and the bytes those samples stand at. No other crate speaks of half samples,
// chroma halving or byte addresses.
#![tactic(auto)]

// What a block's rows are rows of: the frame, or one of its two fields, each every second row of the frame (MPEG-2's picture structure).
#[derive(Clone, Copy)]
pub enum Structure {
    Frame,
    TopField,
    BottomField,
}

// A motion vector in half samples, x to the right and y down.
#[derive(Clone, Copy)]
pub struct Vector {
    pub x: i16,
    pub y: i16,
}

// A picture buffer's layout: bytes from row to row, and the row at which chroma starts (document 01's C).
#[derive(Clone, Copy, Default)]
pub struct Surface {
    pub pitch: u32,
    pub chroma_row: u16,
}

// The picture's size in macroblocks (document 01's W and H).
#[derive(Clone, Copy, Default)]
pub struct Grid {
    pub columns: u16,
    pub rows: u16,
}

// A macroblock's place in the picture (document 01's X and Y).
#[derive(Clone, Copy, Default)]
pub struct Position {
    pub column: u16,
    pub row: u16,
}

// What is touched of one picture buffer: first is its lowest touched byte and end one more than its highest, both 0 where none is
// touched. Whether any is, the end tells.
#[derive(Clone, Copy)]
pub struct Extent {
    pub first: u64,
    pub end: u64,
}

// What vectors may be in one line of blocks, a row or a column of macroblocks: a component plus 32768 from low to low + span,
// and last the last block's place.
#[derive(Clone, Copy)]
pub struct Line {
    pub low: u16,
    pub span: u16,
    pub last: u16,
}
