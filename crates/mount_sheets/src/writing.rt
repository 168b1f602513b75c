// A record written behind the bytes of a file.
use crate::failing;
use crate::failing::Failure;
use std::fs::{File, OpenFile};
use std::io;
use std::io::{Seek, SeekFrom, Write};
use std::rt::Files;

const RECORD: usize = 16;

// Says why a write took less than a record, cuts the file back to its old length, and answers whether that was done.
fn cut_back(rt: &impl Eprint, file: &impl OpenFile, len: u64, why: Failure) -> Failure {
    failing::say(rt, why);
    match file.set_len(len) {
        Ok(()) => Failure::CutBack,
        Err(e) => Failure::NotCutBack(e),
    }
}

// Whether the file ends behind so many bytes.
fn check_end(file: &mut impl Seek, len: u64) -> Result<(), Failure> {
    match file.seek(SeekFrom::End(0)) {
        Ok(end) if end == len => Ok(()),
        _ => Err(Failure::OtherLength),
    }
}

// Writes the record behind so many bytes, to the disk.
fn write_record(
    rt: &impl Eprint,
    file: &mut (impl Write + Seek + OpenFile),
    len: u64,
    record: &[u8; RECORD],
) -> Result<(), Failure> {
    check_end(file, len)?;
    match file.write(record) {
        Ok(RECORD) => {}
        Ok(_) => return Err(cut_back(rt, file, len, Failure::PartWritten)),
        Err(e) => return Err(cut_back(rt, file, len, Failure::Unwritten(e))),
    }
    file.sync_all().map_err(Failure::Unsure)
}

fn open<R: Files>(rt: &R, path: &str, is_new: bool) -> io::Result<R::File> {
    if is_new {
        return File::options().write(true).create_new(true).open(rt, path);
    }
    File::options().append(true).open(rt, path)
}

// Writes a record behind the bytes that were found in the file, which is made if none was found.
pub fn append(
    rt: &(impl Files + Eprint),
    path: &str,
    found: Option<usize>,
    record: &[u8; RECORD],
) -> Result<(), Failure> {
    let mut file = open(rt, path, found.is_none()).map_err(Failure::Unopened)?;
    write_record(rt, &mut file, found.unwrap_or(0) as u64, record)
}
