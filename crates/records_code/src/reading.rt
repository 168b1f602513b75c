// A macroblock written as its record, and one command read to its record.
ghost use Rattle.std.specs.Prelude.{◌≡◌};
ghost use Rattle.records.specs.Layout.{record_length};
ghost use Rattle.records.specs.Records.{record_of};
ghost use Rattle.answers.specs.Lending.{room_for, lent_after};
ghost use Rattle.records.specs.Alone.{read_fault, read_answer, read_room};

use crate::layout;
use answers::Fault;
use macroblock::{Allowed, Macroblock};

// Writes a macroblock's record into the first 24 bytes of room.
pub fn write_record(macroblock: Macroblock, room: &mut [u8]) -> Result<(), Fault>
    ensures { (result ≡ room_for record_length room.old) × (room.new ≡ lent_after (room_for record_length room.old) (record_of macroblock) room.old) }
{
    if room.len() < 24 {
        return Err(Fault {
            number: 14,
            place: 24,
        });
    }
    room[..24].copy_from_slice(&layout::record_of(macroblock));
    Ok(())
}

// The rule that one MACROBLOCK command alone breaks first.
#[tactic(auto, unfolding(records::specs::Alone::read_fault))]
fn command_fault(words: &[u32]) -> Result<(), Fault>
    ensures { result ≡ read_fault words.now }
{
    if words.is_empty() {
        return Err(Fault {
            number: 1,
            place: 0,
        });
    }
    if words[0] != headers::MACROBLOCK_HEADER {
        return Err(Fault {
            number: 2,
            place: 0,
        });
    }
    if words.len() < 9 {
        let place = words.len() as u64;
        return Err(Fault { number: 1, place });
    }
    let either = Allowed {
        dct_type: true,
        field: true,
    };
    macroblock_code::fault_of(either, words)
}

// Reads one MACROBLOCK command into the first 24 bytes of room.
#[tactic(auto, unfolding(records::specs::Alone::read_answer, records::specs::Alone::read_room))]
pub fn read_command(words: &[u32], room: &mut [u8]) -> Result<(), Fault>
    ensures { (result ≡ read_answer words.now room.old) × (room.new ≡ read_room words.now room.old) }
{
    command_fault(words)?;
    write_record(macroblock_code::macroblock_of(words), room)
}
