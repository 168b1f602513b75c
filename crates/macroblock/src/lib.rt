// Macroblocks, the words of their MACROBLOCK commands, and the rules that those keep by themselves.
#![tactic(auto)]

use prediction::Vector;

// What an inter macroblock is predicted from, with the vectors that it has and no others.
#[derive(Clone, Copy)]
pub enum Prediction {
    Forward(Vector),
    Backward(Vector),
    Both(Vector, Vector),
    // The top field's vector and the bottom field's, and for each whether it is predicted from the reference's bottom field.
    Field(Vector, Vector, bool, bool),
}

// How a macroblock is coded.
#[derive(Clone, Copy)]
pub enum Case {
    Intra,
    Inter(Prediction),
}

// A case as numbers: its kind (0 intra, 1 forward, 2 backward, 3 both, 4 field forward), its vectors' words, 0 where there is
// none, and a field prediction's choices. The top field's vector is the forward one.
#[derive(Clone, Copy)]
pub struct Motion {
    // A number and no enum: `kind_in` keeps what word 1 says, legal or not.
    pub kind: u8,
    pub forward: u32,
    pub backward: u32,
    pub bottom: u32,
    pub top_from_bottom: bool,
    pub bottom_from_bottom: bool,
}

// The flags of a macroblock, in the order of the log record's bits.
#[derive(Clone, Copy)]
pub struct Flags {
    pub first_in_slice: bool,
    pub last_in_slice: bool,
    pub first_in_group: bool,
    pub last_in_group: bool,
    pub clamp: bool,
    pub no_skip_conversion: bool,
}

// A macroblock. Its command and its log record are two ways to write it down. The upper half of word 1 has no rule and is
// kept as it is (document 01's carried half). Its dct type is field where `dct_type` is set, else frame.
#[derive(Clone, Copy)]
pub struct Macroblock {
    pub column: u16,
    pub row: u16,
    pub upper: u16,
    pub case: Case,
    pub skip: bool,
    pub dct_type: bool,
    pub pattern: u8,
    pub max_size: u8,
    pub target_size: u8,
    pub quantiser: u8,
    pub flags: Flags,
}

// Which of the rules of a macroblock hold that need no picture and not the form of its command.
#[derive(Clone, Copy)]
pub struct Kept {
    pub intra_not_skipped: bool,
    pub intra_pattern: bool,
    pub quantiser: bool,
    pub skip_inside_slice: bool,
    pub skip_pattern: bool,
    pub field_not_skipped: bool,
}

// What a picture allows its macroblocks: a field dct type, and field prediction (type 04h).
#[derive(Clone, Copy)]
pub struct Allowed {
    pub dct_type: bool,
    pub field: bool,
}
