// Listing the sheets.
use crate::failing::Failure;
use crate::printing::Gathered;
use crate::{printing, reading};
use std::io;
use std::rt::Files;

// The refusal of stored sheets that are damaged.
const DAMAGED: u8 = 20;

// Prints a line for each sheet, of one boat or of all, and last how many there were. Not inlined, so that what it gathers is on the stack of a
// listing alone.
#[inline(never)]
fn print_sheets(rt: &impl Print, sheets: &[u8], boat: Option<u32>) -> io::Result<()> {
    let mut lines = Gathered::new();
    let mut listed: u64 = 0;
    for record in sheets.chunks_exact(16) {
        let sheet = mounts_code::sheet_in(record);
        if boat.is_none_or(|asked| asked == sheet.boat) {
            lines.put(
                rt,
                format_args!("{} {} {}", sheet.boat, sheet.edition, sheet.side),
            )?;
            listed += 1;
        }
    }
    lines.put(rt, format_args!("listed {listed}"))?;
    lines.print(rt)
}

// Lists the sheets if they are good. That is asked of the sheet of edition 0, which no boat has.
pub fn list(
    rt: &(impl Files + Print),
    path: &str,
    room: &mut [u8],
    boat: Option<u32>,
) -> Result<(), Failure> {
    let len = reading::read(rt, path, room)?;
    let sheets = &room[..len];
    if let Err(fault) = mounts_code::ask(sheets, reading::records_in(len), 0, 0) {
        if fault.number == DAMAGED {
            return printing::refusal(rt, fault);
        }
    }
    print_sheets(rt, sheets, boat).map_err(Failure::Unprinted)
}
