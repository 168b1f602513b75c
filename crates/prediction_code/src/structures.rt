// Frames and fields.
ghost use Rattle.std.specs.Prelude.{◌≡◌, ◌+◌, ◌*◌, ◌<◌, ◌≤◌};
ghost use Rattle.prediction.specs.Addresses.{luma};
ghost use Rattle.prediction.specs.Structures.{half_rows, rows_in, row_of};

use prediction::Structure;

// The chroma rows of a block.
#[inline(always)]
pub(crate) fn half_rows(structure: Structure) -> u8
    ensures { (result ≡ half_rows structure) × (result ≤ 8) × (4 ≤ result) }
{
    match structure {
        Structure::Frame => 8,
        Structure::TopField | Structure::BottomField => 4,
    }
}

// Its luma rows.
#[inline(always)]
pub(crate) fn luma_rows(structure: Structure) -> u8
    ensures { (result ≡ rows_in structure luma) × (result ≤ 16) × (8 ≤ result) }
{
    2 * half_rows(structure)
}

// The row of the frame at which a row of the structure stands. Which field it is costs no branch.
#[inline(always)]
pub(crate) fn row_of(structure: Structure, row: u32) -> u32
    requires { row < 2097152 }
    ensures { (result ≡ row_of structure row) × (result ≤ 2 * row + 1) }
{
    let (step, first) = match structure {
        Structure::Frame => (1, 0),
        Structure::TopField => (2, 0),
        Structure::BottomField => (2, 1),
    };
    step * row + first
}
