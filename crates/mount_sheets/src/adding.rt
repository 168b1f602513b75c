// Adding a sheet. The file is opened for writing only when the sheet was accepted.
ghost use Rattle.std.specs.Prelude.{◌≤◌, length, IfOk, IfSome};

use crate::failing::Failure;
use crate::{printing, reading, writing};
use std::rt::Files;

// How many bytes are lent for adding: all, or only the file's own if it does not end with a whole record, since that is refused.
fn lent_bytes(len: usize, capacity: usize) -> usize
    requires { len ≤ capacity }
    ensures { result ≤ capacity }
{
    if len % 16 == 0 {
        return capacity;
    }
    len
}

// Reads the file, and answers how many bytes it has if there is one.
fn read(rt: &impl Files, path: &str, room: &mut [u8]) -> Result<Option<usize>, Failure>
    ensures { IfOk result (λ found. IfSome found (λ len. len ≤ length room.new)) }
{
    match reading::read(rt, path, room) {
        Ok(len) => Ok(Some(len)),
        Err(Failure::Missing(_)) => Ok(None),
        Err(failure) => Err(failure),
    }
}

pub fn add(
    rt: &(impl Files + Print + Eprint),
    path: &str,
    room: &mut [u8],
    boat: u32,
    edition: u32,
    side: u32,
) -> Result<(), Failure> {
    let found = read(rt, path, room)?;
    let len = found.unwrap_or(0);
    let lent = lent_bytes(len, room.len());
    let records = reading::records_in(len);
    let added = mounts_code::add(&mut room[..lent], records, boat, edition, side);
    if let Err(fault) = added.answer {
        return printing::refusal(rt, fault);
    }
    // A sheet is accepted only where its record has room.
    let Some(record) = room[len..].first_chunk() else {
        return Ok(());
    };
    writing::append(rt, path, found, record)?;
    printing::added(rt, added.count)
}
