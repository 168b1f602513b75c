// The first byte that commands of a row touch of a reference, by a second look at them: the loop over the row counts ends alone, since few
// rows can lower a first byte.
ghost use Rattle.std.specs.Prelude.{true, ◌≡◌, ◌+◌, ◌*◌, ◌≤◌, ◌<◌, length};
ghost use Rattle.prediction.specs.Lines.{floor_of};
ghost use Rattle.prediction.specs.declared.Structure.TheVariants.{Frame, TopField};
ghost use Rattle.rows.specs.Touching.{uses_vector, uses_fields, points_in, lowered, frames_only, VectorsFit, across_of, down_of, lowest_of, touched_after, Lowered};
ghost use Rattle.placement.specs.Placing.{allowed_in};

use crate::words;
use macroblock::Allowed;
use picture::Codes;
use prediction::{Extent, Grid, Position, Structure, Surface};
use progress::Progress;

// The first byte, for a minimum: the highest number where nothing is touched, since a minimum with it is the other one (`lowest_of`).
fn lowest(extent: Extent) -> u64
    ensures { result ≡ lowest_of extent }
{
    if extent.end == 0 {
        return u64::MAX;
    }
    extent.first
}

// The lowest components that a reference's vectors can have: of x, and of y in frames and in fields.
#[derive(Clone, Copy)]
struct Floors {
    left: u16,
    low: u16,
    field_low: u16,
}

// One reference, as commands of a row from a position on may use it. `alone` is the type of a macroblock that is predicted from it alone,
// and the vector of such a one stands in word `word`.
#[derive(Clone, Copy)]
pub(crate) struct Look {
    surface: Surface,
    grid: Grid,
    position: Position,
    codes: Codes,
    allowed: Allowed,
    alone: u32,
    word: usize,
}

impl Look {
    pub(crate) fn forward(progress: Progress) -> Self
        ensures { result ≡ record { surface = progress.frame.surface; grid = progress.picture.grid; position = progress.position; codes = progress.picture.forward; allowed = allowed_in progress.picture; alone = 0x100; word = 5 } }
    {
        Look {
            surface: progress.frame.surface,
            grid: progress.picture.grid,
            position: progress.position,
            codes: progress.picture.forward,
            allowed: placement_code::allowed_in(progress.picture),
            alone: words::FORWARD,
            word: 5,
        }
    }

    // Fields are predicted from the forward reference alone.
    pub(crate) fn backward(progress: Progress) -> Self
        ensures { result ≡ record { surface = progress.frame.surface; grid = progress.picture.grid; position = progress.position; codes = progress.picture.backward; allowed = frames_only (allowed_in progress.picture); alone = 0x200; word = 6 } }
    {
        let allowed = Allowed {
            field: false,
            ..placement_code::allowed_in(progress.picture)
        };
        Look {
            codes: progress.picture.backward,
            allowed,
            alone: words::BACKWARD,
            word: 6,
            ..Look::forward(progress)
        }
    }

    // Whether a command with this word 1 is predicted from the reference's frame.
    fn uses(self, one: u32) -> bool
        ensures { result ≡ uses_vector self.allowed.dct_type self.alone one }
    {
        let kind = fields_code::with_bits(words::type_bits(self.allowed.dct_type, one), 2, 2, 0);
        kind == self.alone || kind == words::BOTH
    }

    // Whether it is predicted from fields.
    fn uses_fields(self, one: u32) -> bool
        ensures { result ≡ uses_fields self.allowed one }
    {
        self.allowed.field && words::type_bits(self.allowed.dct_type, one) == words::FIELDS
    }

    // The lowest of a first byte and those of the vectors of a command at a column.
    fn first_next(self, first: u64, column: u16, words: &[u32]) -> u64
        ensures { result ≡ lowered self.surface (record { column = column; row = self.position.row }) (points_in self.alone self.word self.allowed words.now) first }
    {
        let surface = self.surface;
        let position = Position {
            column,
            ..self.position
        };
        let one = headers_code::word_at(words, 1);
        if self.uses(one) {
            let vector = headers_code::word_at(words, self.word);
            return prediction_code::first_with(first, Structure::Frame, surface, position, vector);
        }
        if !self.uses_fields(one) {
            return first;
        }
        let four = headers_code::word_at(words, 4);
        let top = placement_code::field_of(fields_code::is_set(four, 16));
        let bottom = placement_code::field_of(fields_code::is_set(four, 18));
        let five = headers_code::word_at(words, 5);
        let seven = headers_code::word_at(words, 7);
        let above = prediction_code::first_with(first, top, surface, position, five);
        prediction_code::first_with(above, bottom, surface, position, seven)
    }

    fn floors(self) -> Floors
        ensures { result ≡ record { left = (across_of self.grid self.codes).low; low = (down_of self.grid self.codes Frame).low; field_low = (down_of self.grid self.codes TopField).low } }
    {
        let grid = self.grid;
        let codes = self.codes;
        Floors {
            left: prediction_code::line_of(Structure::Frame, grid.columns, codes.x).low,
            low: prediction_code::line_of(Structure::Frame, grid.rows, codes.y).low,
            field_low: prediction_code::line_of(Structure::TopField, grid.rows, codes.y).low,
        }
    }

    // The first byte that a block of the row from a column on can touch, with these lowest components.
    fn floor(self, structure: Structure, column: u16, left: u16, low: u16) -> u64
        ensures { (result ≡ floor_of structure self.surface column left self.position.row low) × (result < 9223372036854775808) }
    {
        prediction_code::floor_of(
            structure,
            self.surface,
            column,
            left,
            self.position.row,
            low,
        )
    }

    // Whether no block of the row from a column on begins before a byte.
    fn stays(self, first: u64, column: u16, floors: Floors) -> bool
        ensures { result ≡ true → (first < 9223372036854775808) × (first ≤ floor_of Frame self.surface column floors.left self.position.row floors.low) × (self.allowed.field ≡ true → first ≤ floor_of TopField self.surface column floors.left self.position.row floors.field_low) }
    {
        let left = floors.left;
        first <= self.floor(Structure::Frame, column, left, floors.low)
            && (!self.allowed.field
                || first <= self.floor(Structure::TopField, column, left, floors.field_low))
    }

    // The bounds on the count, here and in `touched`, are of the words, which no value here holds.

    // The first byte that is touched of the reference after so many commands, where `first` is the one before them. The look ends
    // where no block from there on can begin before it, which in most rows is at once. It is kept out of the loop over the row.
    #[inline(never)]
    fn first_after(self, first: u64, count: usize, words: &[u32]) -> u64
        requires { (9 * count ≤ length words.now) × (self.position.column + count < 65536) × VectorsFit (points_in self.alone self.word self.allowed) self.surface self.position words.now (across_of self.grid self.codes) (down_of self.grid self.codes) count }
        ensures { Lowered (points_in self.alone self.word self.allowed) self.surface self.position words.now count first result }
    {
        let floors = self.floors();
        let mut lowest = first;
        for k in 0..count {
            let column = self.position.column + k as u16;
            if self.stays(lowest, column, floors) {
                return lowest;
            }
            lowest = self.first_next(lowest, column, &words[9 * k..9 * k + 9]);
        }
        lowest
    }

    // What is touched of the reference after so many commands, by them or before them: some byte, and all below `end`.
    #[inline(always)]
    pub(crate) fn touched(self, extent: Extent, end: u64, count: usize, words: &[u32]) -> Extent
        requires { (9 * count ≤ length words.now) × (self.position.column + count < 65536) × (0 < end) × (end ≡ (touched_after (points_in self.alone self.word self.allowed) self.surface self.position words.now count extent).end) × VectorsFit (points_in self.alone self.word self.allowed) self.surface self.position words.now (across_of self.grid self.codes) (down_of self.grid self.codes) count }
        ensures { result ≡ touched_after (points_in self.alone self.word self.allowed) self.surface self.position words.now count extent }
    {
        let first = self.first_after(lowest(extent), count, words);
        Extent { first, end }
    }
}
