// The answer at the end of a batch.
ghost use Rattle.std.specs.Prelude.{◌≡◌};
ghost use Rattle.answers.specs.Answers.{judged};
ghost use Rattle.batch.specs.Reports.{buffer_rules, measured, reportable, values_of};

use answers::Fault;
use answers_code::rule;
use batch::{Lengths, Refusal, Reported};
use progress::{Extents, Progress};

// The lowest buffer that is too short.
#[tactic(auto, unfolding(batch::specs::Reports::buffer_rules), using(answers::proofs::Judging::in_turn))]
fn buffer_fault(extents: Extents, lengths: Lengths) -> Result<(), Fault>
    ensures { result ≡ judged (buffer_rules extents lengths) }
{
    let source = extents.source.end <= lengths.source;
    let reconstructed = extents.reconstructed.end <= lengths.reconstructed;
    let forward = extents.forward.end <= lengths.forward;
    let backward = extents.backward.end <= lengths.backward;
    rule(13, 0, source)
        .and(rule(13, 1, reconstructed))
        .and(rule(13, 2, forward))
        .and(rule(13, 3, backward))
}

// The answer to a whole batch that keeps every other rule, from how far it had come with END.
#[tactic(auto, unfolding(batch::specs::Reports::measured))]
pub fn report_of(progress: Progress, lengths: Lengths) -> Result<Reported, Refusal>
    ensures { result ≡ measured (reportable progress) lengths }
{
    let extents = progress.extents;
    let reported = Reported { extents };
    match buffer_fault(extents, lengths) {
        Ok(()) => Ok(reported),
        Err(fault) => Err(Refusal::Short(fault, reported)),
    }
}

// The numbers that are reported, in the order in which they are printed.
pub fn values_of(reported: Reported) -> [u64; batch::VALUES]
    ensures { result ≡ values_of reported }
{
    let Extents {
        source,
        reconstructed,
        forward,
        backward,
    } = reported.extents;
    [
        source.end,
        reconstructed.end,
        forward.end,
        backward.end,
        source.first,
        reconstructed.first,
        forward.first,
        backward.first,
    ]
}
