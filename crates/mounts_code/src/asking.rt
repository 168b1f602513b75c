// Stored sheets judged in one pass, and a sheet asked for.
ghost use Rattle.std.specs.Prelude.{◌≡◌, ◌+◌, ◌*◌, ◌≤◌, length, Ok};
ghost use Rattle.std.specs.Result.{result_and};
ghost use Rattle.mounts.specs.Editions.{newest, edition_of};
ghost use Rattle.mounts.specs.Mounts.{first_bad, stored_fault, asked};
ghost use Rattle.mounts.specs.Sheets.{sheets_in};

use crate::records;
use answers::Fault;
use mounts::Sheet;

// A boat's sheets are looked for by the remainder of its number: for each remainder it is known how many records reach to the last that
// has it, and so where to look for the boat's newest from. A prime, so that boats are spread whatever step their numbers have. A
// table and no map, since there is no heap.
const REMAINDERS: usize = 509;

// A boat's newest sheet not above an edition, among the first records.
fn newest_before(sheets: &[u8], end: usize, boat: u32, edition: u32) -> Option<Sheet>
    requires { 16 * end ≤ length sheets.now }
    ensures { result ≡ newest boat edition (sheets_in end sheets.now) }
{
    for k in (0..end).rev() {
        let sheet = records::sheet_at(sheets, k);
        if sheet.boat == boat && sheet.edition <= edition {
            return Some(sheet);
        }
    }
    None
}

// The edition that follows.
pub(crate) fn edition_after(newest: Option<Sheet>) -> u64
    ensures { result ≡ edition_of newest + 1 }
{
    newest.map_or(1, |sheet| sheet.edition as u64 + 1)
}

// Judges the first records. If none is bad, a boat's newest sheet not above an edition.
fn judge_records(
    sheets: &[u8],
    count: usize,
    boat: u32,
    edition: u32,
) -> Result<Option<Sheet>, Fault>
    requires { 16 * count ≤ length sheets.now }
    ensures { result ≡ result_and (first_bad count sheets.now) (Ok (newest boat edition (sheets_in count sheets.now))) }
{
    let mut ends = [0usize; REMAINDERS];
    for k in 0..count {
        let sheet = records::sheet_at(sheets, k);
        let remainder = sheet.boat as usize % REMAINDERS;
        let end = ends[remainder];
        let next = edition_after(newest_before(sheets, end, sheet.boat, u32::MAX));
        if 1 < sheet.side || !records::zero_filler(sheets, k) || sheet.edition as u64 != next {
            return Err(Fault {
                number: 20,
                place: k as u64,
            });
        }
        ends[remainder] = k + 1;
    }
    let end = ends[boat as usize % REMAINDERS];
    Ok(newest_before(sheets, end, boat, edition))
}

// The same for a number of records that the bytes may not hold.
pub(crate) fn judge(
    sheets: &[u8],
    count: u64,
    boat: u32,
    edition: u32,
) -> Result<Option<Sheet>, Fault>
    ensures { result ≡ result_and (stored_fault sheets.now count) (Ok (newest boat edition (sheets_in count sheets.now))) }
{
    let capacity = (sheets.len() / 16) as u64;
    if capacity < count {
        return Err(Fault {
            number: 20,
            place: capacity,
        });
    }
    judge_records(sheets, count as usize, boat, edition)
}

// The boat's newest sheet not above the edition, among so many stored sheets.
pub fn ask(sheets: &[u8], count: u64, boat: u32, edition: u32) -> Result<Sheet, Fault>
    ensures { result ≡ asked sheets.now count boat edition }
{
    let newest = judge(sheets, count, boat, edition)?;
    newest.ok_or(Fault {
        number: 19,
        place: 0,
    })
}
