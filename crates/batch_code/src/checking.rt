// The check of a whole batch.
ghost use Rattle.std.specs.Prelude.{◌≡◌};
ghost use Rattle.batch.specs.Reports.{verdict_of, report};

use crate::{reporting, walking};
use answers::Fault;
use batch::{Lengths, Refusal, Reported};
use progress::Progress;

// What a batch comes to, the buffers apart: how far it had come with END, or the first rule that it breaks.
pub fn judge_batch(words: &[u32]) -> Result<Progress, Fault>
    ensures { result ≡ verdict_of words.now }
{
    let progress = walking::walk(progress_code::fresh(), 0, words)?.progress;
    if !progress.stage.ended {
        return Err(Fault {
            number: 1,
            place: words.len() as u64,
        });
    }
    Ok(progress)
}

// The answer to a batch with four buffers of these lengths.
#[tactic(auto, unfolding(batch::specs::Reports::report))]
pub fn check(words: &[u32], lengths: Lengths) -> Result<Reported, Refusal>
    ensures { result ≡ report lengths words.now }
{
    let progress = judge_batch(words).map_err(Refusal::Broken)?;
    reporting::report_of(progress, lengths)
}
