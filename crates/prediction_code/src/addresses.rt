// The byte at a column and a row of a picture buffer in Y tiles. A tile has 128 columns and 32 rows, and stands in memory as
// eight strips of 16 columns, each with its rows one after the other; so the strips of a row of tiles follow each other.
ghost use Rattle.std.specs.Prelude.{◌≡◌, ◌<◌};
ghost use Rattle.prediction.specs.Addresses.{address};

pub(crate) fn address(pitch: u32, column: u32, row: u32) -> u64
    requires { (column < 2097152) × (row < 4194304) }
    ensures { (result ≡ address pitch column row) × (result < 9223372036854775808) }
{
    let strip = column / 16 * 512 + row % 32 * 16 + column % 16;
    let tiles = (row / 32 * 32) as u64;
    tiles * (pitch as u64) + (strip as u64)
}
