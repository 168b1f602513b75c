// The library for C: each function of `hromulice` under the name that C calls it by, with its contract again. Nothing is computed here.
#![tactic(auto)]

ghost use Rattle.std.specs.Prelude.{◌≡◌};
ghost use Rattle.memory.specs.Places.{memory_words};
ghost use Rattle.interface.specs.Version.{library_version, version_number};
ghost use Rattle.interface.specs.Promises.{SummaryOfCheck, SummaryOfDecode, CommandRead, RecordWritten};
ghost use Rattle.interface.specs.Handing.{MemoryBegun, MemoryHanded, summary_in};
ghost use Rattle.interface.specs.Mounting.{MountAsked, MountAdded, MountTurned};

use batch::Lengths;
use interface::{Mount, MountShift, Mounts, Outcome, Summary};

// The version as one number, for a caller that compares it with the version that it was compiled for.
#[unsafe(no_mangle)]
pub extern "C" fn hromulice_version() -> u32
    ensures { result ≡ version_number library_version }
{
    hromulice::hromulice_version()
}

// How many words the lent memory has, for a caller that compares it with the size that it was compiled for.
#[unsafe(no_mangle)]
pub extern "C" fn hromulice_state_words() -> u64
    ensures { result ≡ memory_words }
{
    hromulice::hromulice_state_words()
}

// The answer to a batch with four buffers of these lengths.
#[unsafe(no_mangle)]
pub extern "C" fn hromulice_check(words: &[u32], lengths: Lengths) -> Summary
    ensures { SummaryOfCheck words.now lengths result }
{
    hromulice::hromulice_check(words, lengths)
}

// The same, with the records of the batch's macroblocks written to the log.
#[unsafe(no_mangle)]
pub extern "C" fn hromulice_decode(words: &[u32], lengths: Lengths, log: &mut [u8]) -> Summary
    ensures { SummaryOfDecode words.now log.old lengths result log.new }
{
    hromulice::hromulice_decode(words, lengths, log)
}

// A check with four buffers of these lengths, before its first word.
#[unsafe(no_mangle)]
pub extern "C" fn hromulice_begin(lengths: Lengths, memory: &mut [u64; memory::WORDS])
    ensures { MemoryBegun lengths memory.new }
{
    hromulice::hromulice_begin(lengths, memory)
}

// The next part. A check that has stopped leaves the memory as it is.
#[unsafe(no_mangle)]
pub extern "C" fn hromulice_hand_over(memory: &mut [u64; memory::WORDS], part: &[u32])
    ensures { MemoryHanded memory.old part.now memory.new }
{
    hromulice::hromulice_hand_over(memory, part)
}

// The answer to all words so far, taken as a whole batch.
#[unsafe(no_mangle)]
pub extern "C" fn hromulice_report_of(memory: &[u64; memory::WORDS]) -> Summary
    ensures { result ≡ summary_in memory.now }
{
    hromulice::hromulice_report_of(memory)
}

// Reads one MACROBLOCK command into the first 24 bytes of record.
#[unsafe(no_mangle)]
pub extern "C" fn hromulice_read_command(words: &[u32], record: &mut [u8]) -> Outcome
    ensures { CommandRead words.now «record».old result «record».new }
{
    hromulice::hromulice_read_command(words, record)
}

// Writes the command of one record into the first nine words.
#[unsafe(no_mangle)]
pub extern "C" fn hromulice_write_command(record: &[u8], words: &mut [u32]) -> Outcome
    ensures { RecordWritten «record».now words.old result words.new }
{
    hromulice::hromulice_write_command(record, words)
}

// The boat's newest sheet not above the edition, among so many stored sheets.
#[unsafe(no_mangle)]
pub extern "C" fn hromulice_ask_mount(sheets: &[u8], count: u64, boat: u32, edition: u32) -> Mount
    ensures { MountAsked sheets.now count boat edition result }
{
    hromulice::hromulice_ask_mount(sheets, count, boat, edition)
}

// Adds a sheet behind so many stored ones.
#[unsafe(no_mangle)]
pub extern "C" fn hromulice_add_mount(
    sheets: &mut [u8],
    count: u64,
    boat: u32,
    edition: u32,
    side: u32,
) -> Mounts
    ensures { MountAdded sheets.old count boat edition side result sheets.new }
{
    hromulice::hromulice_add_mount(sheets, count, boat, edition, side)
}

// The vector of a measured shift on a side.
#[unsafe(no_mangle)]
pub extern "C" fn hromulice_mount_vector(side: u32, x: i16, y: i16) -> MountShift
    ensures { MountTurned side x y result }
{
    hromulice::hromulice_mount_vector(side, x, y)
}
