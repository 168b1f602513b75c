// A sheet added behind the last.
ghost use Rattle.std.specs.Prelude.{◌≡◌};
ghost use Rattle.mounts.specs.Mounts.{add_answer, added, bytes_after};
ghost use Rattle.mounts.specs.Sheets.{sheet};

use crate::{asking, records};
use answers::Fault;
use mounts::{Added, Sheet};

// The rule that adding a sheet breaks first.
fn add_answer(sheets: &[u8], count: u64, boat: u32, edition: u32, side: u32) -> Result<(), Fault>
    ensures { result ≡ add_answer sheets.now count (sheet boat edition side) }
{
    let newest = asking::judge(sheets, count, boat, u32::MAX)?;
    if 1 < side {
        return Err(Fault {
            number: 22,
            place: 0,
        });
    }
    if edition as u64 != asking::edition_after(newest) {
        return Err(Fault {
            number: 21,
            place: 0,
        });
    }
    if (sheets.len() / 16) as u64 <= count {
        return Err(Fault {
            number: 14,
            place: 0,
        });
    }
    Ok(())
}

// Adds a sheet behind so many stored ones.
pub fn add(sheets: &mut [u8], count: u64, boat: u32, edition: u32, side: u32) -> Added
    ensures { (result ≡ added sheets.old count (sheet boat edition side)) × (sheets.new ≡ bytes_after sheets.old count (sheet boat edition side)) }
{
    let answer = add_answer(sheets, count, boat, edition, side);
    if answer.is_err() {
        return Added { answer, count };
    }
    let at = 16 * count as usize;
    let sheet = Sheet {
        boat,
        edition,
        side: side as u8,
    };
    records::write_sheet(sheet, &mut sheets[at..]);
    Added {
        answer,
        count: count + 1,
    }
}
