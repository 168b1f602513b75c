// One command, and one record.
ghost use Rattle.interface.specs.Promises.{CommandRead, RecordWritten};

use crate::summaries;
use interface::Outcome;

// Reads one MACROBLOCK command into the first 24 bytes of record.
pub fn hromulice_read_command(words: &[u32], record: &mut [u8]) -> Outcome
    ensures { CommandRead words.now «record».old result «record».new }
{
    summaries::outcome_of(records_code::read_command(words, record))
}

// Writes the command of one record into the first nine words.
pub fn hromulice_write_command(record: &[u8], words: &mut [u32]) -> Outcome
    ensures { RecordWritten «record».now words.old result words.new }
{
    summaries::outcome_of(records_code::write_command(record, words))
}
