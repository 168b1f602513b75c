// A macroblock's block in a picture buffer.
ghost use Rattle.std.specs.Prelude.{◌≡◌, ◌&&◌, pos, is_some, IfSome};
ghost use Rattle.std.specs.Int.Signed.{le_z};
ghost use Rattle.std.proofs.Math.IntN.{sub_ℕ};
ghost use Rattle.prediction.specs.Addresses.{luma};
ghost use Rattle.prediction.specs.Spans.{first_of};
ghost use Rattle.prediction.specs.Structures.{half_rows, rows_in};
ghost use Rattle.prediction.specs.Blocks.{block_extent, block_at};
ghost use Rattle.prediction.specs.declared.Surface.{Surface};

use crate::addresses::address;
use crate::spans;
use crate::spans::Span;
use crate::structures::{half_rows, luma_rows, row_of};
use prediction::{Extent, Grid, Position, Structure, Surface, Vector};

// The block that a vector displaces from a macroblock's position, in rows of a structure, where it does not start before the picture.
#[derive(Clone, Copy)]
pub(crate) struct Displaced {
    pub structure: Structure,
    pub across: Span,
    pub down: Span,
    ghost columns: { across.half ≡ 8 },
    ghost rows: { down.half ≡ half_rows structure },
}

impl Displaced {
    // None where it starts before the picture.
    #[inline(always)]
    pub(crate) fn new(structure: Structure, position: Position, vector: Vector) -> Option<Displaced>
        ensures starts { is_some result ≡ (le_z (pos 0) (first_of 16 position.column vector.x) && le_z (pos 0) (first_of (rows_in structure luma) position.row vector.y)) }
        ensures is { IfSome result (λ d. (s : Surface) → block_extent d.structure s (record { column = d.across.place; row = d.down.place }) (record { x = sub_ℕ d.across.b 32768; y = sub_ℕ d.down.b 32768 }) ≡ block_extent structure s position vector) }
    {
        let across = Span::new(8, position.column, spans::biased(vector.x))?;
        let down = Span::new(half_rows(structure), position.row, spans::biased(vector.y))?;
        Some(Displaced {
            structure,
            across,
            down,
        })
    }

    // Its first byte. The first Cr sample stands behind the first Cb sample, and a luma sample in an earlier row of tiles before both.
    pub(crate) fn first(&self, surface: Surface) -> u64
        ensures { result ≡ (block_extent self.now.structure surface (record { column = self.now.across.place; row = self.now.down.place }) (record { x = sub_ℕ self.now.across.b 32768; y = sub_ℕ self.now.down.b 32768 })).first }
    {
        let pitch = surface.pitch;
        let luma_row = row_of(self.structure, self.down.first());
        let luma = address(pitch, self.across.first(), luma_row);
        let cb_row = surface.chroma_row as u32 + row_of(self.structure, self.down.chroma_first());
        if (32 <= pitch) & (luma_row < cb_row / 32 * 32) {
            return luma;
        }
        luma.min(address(pitch, 2 * self.across.chroma_first(), cb_row))
    }

    // Its end. The last Cb sample stands before the last Cr sample, and a luma sample in an earlier row of tiles before both.
    #[inline(always)]
    pub(crate) fn end(&self, surface: Surface) -> u64
        ensures { result ≡ (block_extent self.now.structure surface (record { column = self.now.across.place; row = self.now.down.place }) (record { x = sub_ℕ self.now.across.b 32768; y = sub_ℕ self.now.down.b 32768 })).end }
    {
        let pitch = surface.pitch;
        let cr_row = surface.chroma_row as u32 + row_of(self.structure, self.down.chroma_last());
        let cr = address(pitch, 2 * self.across.chroma_last() + 1, cr_row);
        let luma_row = row_of(self.structure, self.down.last());
        if (32 <= pitch) & (luma_row < cr_row / 32 * 32) {
            return cr + 1;
        }
        cr.max(address(pitch, self.across.last(), luma_row)) + 1
    }

    // What it touches: both its ends.
    fn extent(&self, surface: Surface) -> Extent
        ensures { result ≡ block_extent self.now.structure surface (record { column = self.now.across.place; row = self.now.down.place }) (record { x = sub_ℕ self.now.across.b 32768; y = sub_ℕ self.now.down.b 32768 }) }
    {
        let first = self.first(surface);
        let end = self.end(surface);
        Extent { first, end }
    }
}

// The block that a vector displaces from a macroblock's position, in rows of a structure. The macroblock's own samples are the frame's block of
// vector (0, 0).
#[tactic(auto, unfolding(prediction::specs::Blocks::block_at))]
pub fn block_at(
    structure: Structure,
    surface: Surface,
    grid: Grid,
    position: Position,
    vector: Vector,
) -> Option<Extent>
    ensures { result ≡ block_at structure surface grid position vector }
{
    let x = spans::biased(vector.x);
    let y = spans::biased(vector.y);
    if !spans::inside(16, position.column, grid.columns, x) {
        return None;
    }
    if !spans::inside(luma_rows(structure), position.row, grid.rows, y) {
        return None;
    }
    // A `match`: with `?` in its place the check does not find the answer.
    match Displaced::new(structure, position, vector) {
        Some(block) => Some(block.extent(surface)),
        None => None,
    }
}
