// A whole batch.
ghost use Rattle.interface.specs.Promises.{SummaryOfCheck, SummaryOfDecode};

use crate::summaries;
use batch::Lengths;
use interface::Summary;

// The answer to a batch with four buffers of these lengths.
pub fn hromulice_check(words: &[u32], lengths: Lengths) -> Summary
    ensures { SummaryOfCheck words.now lengths result }
{
    summaries::summary_of(batch_code::check(words, lengths))
}

// The same, with the records of the batch's macroblocks written to the log.
pub fn hromulice_decode(words: &[u32], lengths: Lengths, log: &mut [u8]) -> Summary
    ensures { SummaryOfDecode words.now log.old lengths result log.new }
{
    summaries::summary_of(decoding_code::decode(words, lengths, log))
}
