// One record written as its command.
ghost use Rattle.std.specs.Prelude.{◌≡◌};
ghost use Rattle.records.specs.Alone.{write_answer, write_room};

use crate::{layout, rules};
use answers::Fault;

// Writes the command of one record into the first nine words of room.
#[tactic(auto, unfolding(records::specs::Alone::write_answer, records::specs::Alone::write_room))]
pub fn write_command(bytes: &[u8], room: &mut [u32]) -> Result<(), Fault>
    ensures { (result ≡ write_answer bytes.now room.old) × (room.new ≡ write_room bytes.now room.old) }
{
    rules::record_fault(bytes)?;
    if room.len() < 9 {
        return Err(Fault {
            number: 14,
            place: 9,
        });
    }
    let words = macroblock_code::words_of(layout::macroblock_in(bytes));
    room[..9].copy_from_slice(&words);
    Ok(())
}
