// A file read whole.
ghost use Rattle.std.specs.Prelude.{◌≤◌, length, IfOk};

use crate::failing::Failure;
use std::fs;
use std::io::{Error, ErrorKind, Read};
use std::rt::Files;

// Whether the file ends where reading stopped, with the room full or not. That the input ended and that a read failed are told apart
// here, by one read more.
fn check_end(file: &mut impl Read, is_full: bool) -> Result<(), Failure> {
    match file.read(&mut [0u8; 1]) {
        Ok(0) => Ok(()),
        Ok(_) if is_full => Err(Failure::TooLong),
        Ok(_) => Err(Failure::NoEnd),
        Err(e) => Err(Failure::Unreadable(e)),
    }
}

// Reads until the room is full, the file ends or a read fails, and answers how many bytes it read.
fn read_full(file: &mut impl Read, room: &mut [u8]) -> usize
    ensures { result ≤ length room.new }
{
    let mut done = 0;
    // A loop by hand: a step is as long as what one read gives.
    while done < room.len() {
        let got = file.read(&mut room[done..]).unwrap_or(0);
        if got == 0 {
            break;
        }
        done += got;
    }
    done
}

fn unopened(why: Error) -> Failure {
    if why.kind() == ErrorKind::NotFound {
        return Failure::Missing(why);
    }
    Failure::Unreadable(why)
}

// Reads the file to the start of the room, and answers how many bytes it has. The room is lent to each command beside the path: its bytes are on
// the stack of `run`, and a struct of both would be made and taken apart once.
pub fn read(rt: &impl Files, path: &str, room: &mut [u8]) -> Result<usize, Failure>
    ensures { IfOk result (λ len. len ≤ length room.new) }
{
    let mut file = fs::open(rt, path).map_err(unopened)?;
    let len = read_full(&mut file, room);
    check_end(&mut file, len == room.len())?;
    Ok(len)
}

// How many records so many bytes are taken for. Where bytes stand behind the last whole one it is one more, which the bytes cannot
// hold, so that they are refused.
pub fn records_in(len: usize) -> u64 {
    len.div_ceil(16) as u64
}
