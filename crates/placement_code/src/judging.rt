// Judging a MACROBLOCK command.
ghost use Rattle.std.specs.Prelude.{◌≡◌};
ghost use Rattle.answers.specs.Answers.{judged};
ghost use Rattle.progress.specs.Progress.{concluded};
ghost use Rattle.placement.specs.Placing.{macroblock_rules};
ghost use Rattle.placement.specs.Progressing.{macroblock_next};

use crate::{placing, progressing, touching};
use answers::Fault;
use answers_code::earlier;
use progress::Progress;

// What a MACROBLOCK command comes to.
#[tactic(auto, unfolding(placement::specs::Placing::macroblock_rules, placement::specs::Progressing::macroblock_next), using(answers::proofs::Judging::judged_append))]
pub fn judge_macroblock(progress: Progress, words: &[u32]) -> Result<Progress, Fault>
    ensures { result ≡ concluded (judged (macroblock_rules progress words.now)) (macroblock_next progress words.now) }
{
    let macroblock = macroblock_code::macroblock_of(words);
    let blocks = touching::blocks_of(progress, macroblock.case);
    earlier(
        placing::placed_fault(progress, blocks, macroblock, words),
        macroblock_code::fault_of(placing::allowed_in(progress.picture), words),
    )?;
    Ok(progressing::progress_after(progress, blocks, macroblock, words))
}
