// Mount sheets in a file, and the sign of a shift. Everything that judges is in `mounts_code`: this program reads, writes and prints.
//     mount_sheets FILE ask BOAT EDITION         found EDITION SIDE
//     mount_sheets FILE add BOAT EDITION SIDE    added COUNT, which is the number of sheets that FILE then has
//     mount_sheets FILE list [BOAT]              BOAT EDITION SIDE, a line a sheet, and last: listed COUNT
//     mount_sheets shift SIDE X Y                vector X Y
// A refusal is refuse NUMBER PLACE. Whatever else goes wrong is said on standard error, and then no such line is printed. All
// arguments but FILE are numbers: ./mounts is the script for people.
#![tactic(auto)]

mod adding;
mod arguments;
mod asking;
mod failing;
mod listing;
mod printing;
mod reading;
mod writing;

use arguments::Command;
use failing::Failure;
use std::env::Env;
use std::rt::Files;

// The largest file, of 65536 sheets.
const FILE: usize = 1048576;

// The longest path.
const PATH: usize = 4096;

fn shift(rt: &(impl Env + Print)) -> Result<(), Failure> {
    let (side, shift) = arguments::shift(rt).ok_or(Failure::Arguments)?;
    match mounts_code::turn(side, shift) {
        Ok(vector) => printing::vector(rt, vector),
        Err(fault) => printing::refusal(rt, fault),
    }
}

// The room is handed over as an array, and not as a slice, so that no proof counts its zeros.
fn on_file(
    rt: &(impl Env + Files + Print + Eprint),
    path: &str,
    room: &mut [u8; FILE],
) -> Result<(), Failure> {
    match arguments::asked_for(rt).ok_or(Failure::Arguments)? {
        Command::Ask { boat, edition } => asking::ask(rt, path, room, boat, edition),
        Command::Add {
            boat,
            edition,
            side,
        } => adding::add(rt, path, room, boat, edition, side),
        Command::List { boat } => listing::list(rt, path, room, boat),
    }
}

// A function of its own, since a function's arrays are filled with zeros when it is called: a shift has no file and fills no room.
fn with_room(rt: &(impl Env + Files + Print + Eprint), path: &str) -> Result<(), Failure> {
    let mut room = [0u8; FILE];
    on_file(rt, path, &mut room)
}

fn run(rt: &(impl Env + Files + Print + Eprint)) -> Result<(), Failure> {
    if arguments::is_shift(rt) {
        return shift(rt);
    }
    let mut name = [0u8; PATH];
    let path = arguments::path(rt, &mut name)?;
    with_room(rt, path)
}

fn main(rt: HostRuntime) {
    if let Err(failure) = run(&rt) {
        failing::say(&rt, failure);
    }
}
