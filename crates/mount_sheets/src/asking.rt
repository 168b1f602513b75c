// Asking for a sheet.
use crate::failing::Failure;
use crate::{printing, reading};
use std::rt::Files;

pub fn ask(
    rt: &(impl Files + Print),
    path: &str,
    room: &mut [u8],
    boat: u32,
    edition: u32,
) -> Result<(), Failure> {
    let len = reading::read(rt, path, room)?;
    match mounts_code::ask(&room[..len], reading::records_in(len), boat, edition) {
        Ok(sheet) => printing::found(rt, sheet),
        Err(fault) => printing::refusal(rt, fault),
    }
}
