// Records of sheets, read and written.
ghost use Rattle.std.specs.Prelude.{◌++◌, ◌≡◌, ◌+◌, ◌*◌, ◌≤◌, eqb, length, drop};
ghost use Rattle.fields.specs.Bytes.{number_in, elements};
ghost use Rattle.fields.specs.Parts.{value_at};
ghost use Rattle.mounts.specs.Layout.{sheet_filler_part};
ghost use Rattle.mounts.specs.Sheets.{sheet_record, stored, sheet_at, sheet_of};

use mounts::Sheet;

// The number in four bytes, as `word_at` of input_code: one public function for both would need an answer for every place, and edits of its
// own.
fn number_at(bytes: &[u8], at: usize) -> u32
    requires { at + 4 ≤ length bytes.now }
    ensures { result ≡ number_in (elements bytes.now at 4) }
{
    fields_code::number32(bytes[at], bytes[at + 1], bytes[at + 2], bytes[at + 3])
}

// The sheet of record k. That the bytes hold it is asked each time: no value holds them, since C lends them.
pub(crate) fn sheet_at(sheets: &[u8], k: usize) -> Sheet
    requires { 16 * (k + 1) ≤ length sheets.now }
    ensures { result ≡ sheet_at sheets.now k }
{
    let at = 16 * k;
    Sheet {
        boat: number_at(sheets, at),
        edition: number_at(sheets, at + 4),
        side: sheets[at + 8],
    }
}

// Whether the filler of record k is zero.
pub(crate) fn zero_filler(sheets: &[u8], k: usize) -> bool
    requires { 16 * (k + 1) ≤ length sheets.now }
    ensures { result ≡ eqb (value_at sheet_filler_part (stored sheets.now k)) 0 }
{
    let at = 16 * k;
    let three = (sheets[at + 9] == 0) & (sheets[at + 10] == 0) & (sheets[at + 11] == 0);
    three & (number_at(sheets, at + 12) == 0)
}

// The sheet of one record, all zero where there are not all its bytes: no `Option`, since the promise is `sheet_of`.
pub fn sheet_in(record: &[u8]) -> Sheet
    ensures { result ≡ sheet_of «record».now }
{
    if record.len() < 16 {
        return Sheet {
            boat: 0,
            edition: 0,
            side: 0,
        };
    }
    sheet_at(record, 0)
}

// Writes the record of a sheet into the first 16 bytes of room.
pub(crate) fn write_sheet(sheet: Sheet, room: &mut [u8])
    requires { 16 ≤ length room.old }
    ensures { room.new ≡ sheet_record sheet ++ drop 16 room.old }
{
    let boat = fields_code::bytes32(sheet.boat);
    let edition = fields_code::bytes32(sheet.edition);
    let side = sheet.side;
    let record = [
        boat[0], boat[1], boat[2], boat[3], edition[0], edition[1], edition[2], edition[3], side,
        0, 0, 0, 0, 0, 0, 0,
    ];
    room[..16].copy_from_slice(&record);
}
