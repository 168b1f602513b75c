// Mount sheets.
ghost use Rattle.std.specs.Prelude.{◌≡◌};
ghost use Rattle.interface.specs.Mounting.{mount_of, mounts_of, mount_shift_of, MountAsked, MountAdded, MountTurned};

use crate::summaries;
use answers::Fault;
use interface::{Mount, MountShift, Mounts, Outcome};
use mounts::{Added, Sheet, Shift};

// Functions and no impl of From, as in summaries.rt, and one for each: C's structs have other fields.

fn mount_of(asked: Result<Sheet, Fault>) -> Mount
    ensures { result ≡ mount_of asked }
{
    match asked {
        Ok(sheet) => Mount {
            number: 0,
            place: 0,
            edition: sheet.edition,
            side: sheet.side,
        },
        Err(fault) => Mount {
            number: fault.number,
            place: fault.place,
            edition: 0,
            side: 0,
        },
    }
}

fn mounts_of(added: Added) -> Mounts
    ensures { result ≡ mounts_of added }
{
    let Outcome { number, place } = summaries::outcome_of(added.answer);
    Mounts {
        number,
        place,
        count: added.count,
    }
}

fn mount_shift_of(turned: Result<Shift, Fault>) -> MountShift
    ensures { result ≡ mount_shift_of turned }
{
    match turned {
        Ok(vector) => MountShift {
            number: 0,
            place: 0,
            x: vector.x,
            y: vector.y,
        },
        Err(fault) => MountShift {
            number: fault.number,
            place: fault.place,
            x: 0,
            y: 0,
        },
    }
}

// The boat's newest sheet not above the edition, among so many stored sheets.
pub fn hromulice_ask_mount(sheets: &[u8], count: u64, boat: u32, edition: u32) -> Mount
    ensures { MountAsked sheets.now count boat edition result }
{
    mount_of(mounts_code::ask(sheets, count, boat, edition))
}

// Adds a sheet behind so many stored ones.
pub fn hromulice_add_mount(
    sheets: &mut [u8],
    count: u64,
    boat: u32,
    edition: u32,
    side: u32,
) -> Mounts
    ensures { MountAdded sheets.old count boat edition side result sheets.new }
{
    mounts_of(mounts_code::add(sheets, count, boat, edition, side))
}

// The vector of a measured shift on a side.
pub fn hromulice_mount_vector(side: u32, x: i16, y: i16) -> MountShift
    ensures { MountTurned side x y result }
{
    mount_shift_of(mounts_code::turn(side, Shift { x, y }))
}
