// The rules of a MACROBLOCK command in its picture, and what it touches.
#![tactic(auto)]

use prediction::Extent;

// Whether a predicted block keeps its rules, and what it touches of its reference.
#[derive(Clone, Copy)]
pub struct Predicted {
    pub in_range: bool,
    // A flag beside the extent and no Option: a reference that is not used touches nothing and yet keeps its rule.
    pub inside: bool,
    pub extent: Extent,
}

// What a macroblock touches: its own samples, and its predicted blocks. A field prediction has two in the forward reference: the top field's
// is `forward`, the bottom field's `bottom`.
#[derive(Clone, Copy)]
pub struct Blocks {
    pub own: Extent,
    pub forward: Predicted,
    pub backward: Predicted,
    pub bottom: Predicted,
}
