// A batch in parts. Between two calls the state of the check is in memory that the caller lends; any content of it is taken.
ghost use Rattle.std.specs.Prelude.{◌≡◌};
ghost use Rattle.memory.specs.Places.{memory_words};
ghost use Rattle.interface.specs.Handing.{MemoryBegun, MemoryHanded, summary_in};

use crate::summaries;
use batch::Lengths;
use interface::Summary;

// How many words the lent memory has, for a caller that compares it with the size that it was compiled for.
pub fn hromulice_state_words() -> u64
    ensures { result ≡ memory_words }
{
    memory::WORDS as u64
}

// A check with four buffers of these lengths, before its first word.
pub fn hromulice_begin(lengths: Lengths, memory: &mut [u64; memory::WORDS])
    ensures { MemoryBegun lengths memory.new }
{
    *memory = memory_code::state_words(parts_code::begin(lengths));
}

// The next part. A check that has stopped leaves the memory as it is.
pub fn hromulice_hand_over(memory: &mut [u64; memory::WORDS], part: &[u32])
    ensures { MemoryHanded memory.old part.now memory.new }
{
    let state = memory_code::state_in(memory);
    if state.fault.is_some() {
        return;
    }
    *memory = memory_code::state_words(parts_code::hand_over(state, part));
}

// The answer to all words so far, taken as a whole batch.
pub fn hromulice_report_of(memory: &[u64; memory::WORDS]) -> Summary
    ensures { result ≡ summary_in memory.now }
{
    let state = memory_code::state_in(memory);
    summaries::summary_of(parts_code::answer(state))
}
