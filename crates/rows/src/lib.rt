// The MACROBLOCK commands of one row of the picture, as they are judged at speed. Nothing here is a rule: all of it is proved
// against the rules of single commands.
#![tactic(auto)]

use macroblock::Allowed;
use prediction::Line;

// The lines of a picture's columns and rows, under the f codes of both references, those of its fields' rows, and what the picture allows.
#[derive(Clone, Copy)]
pub struct Lines {
    pub forward_x: Line,
    pub forward_y: Line,
    pub field_y: Line,
    pub backward_x: Line,
    pub backward_y: Line,
    pub allowed: Allowed,
}

// The ends of what is touched of both references: 0 where nothing is.
#[derive(Clone, Copy)]
pub struct Ends {
    pub forward: u64,
    pub backward: u64,
}
