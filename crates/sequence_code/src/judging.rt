// Judging a command.
#![tactic(auto, unfolding(sequence::specs::Judging::judge, sequence::specs::Judging::rules_of, sequence::specs::Judging::next_of), using(answers::proofs::Judging::judged_append))]

ghost use Rattle.std.specs.Prelude.{◌≡◌, []};
ghost use Rattle.sequence.specs.Judging.{judge};

use crate::stages;
use answers::Fault;
use answers_code::{earlier, rule};
use headers::{Header, Opcode};
use progress::Progress;

fn judge_surface(progress: Progress, words: &[u32]) -> Result<Progress, Fault>
    ensures { result ≡ judge (Header.Known Opcode.Surface 6) progress words.now }
{
    let in_sequence = rule(3, 0, !progress.stage.surfaced);
    earlier(in_sequence, picture_code::surface_fault(words))?;
    Ok(stages::surface_next(progress, picture_code::surface_of(words)))
}

fn judge_picture(progress: Progress, words: &[u32]) -> Result<Progress, Fault>
    ensures { result ≡ judge (Header.Known Opcode.Picture 13) progress words.now }
{
    let in_sequence = rule(3, 0, progress.stage.surfaced & !progress.stage.pictured);
    let fault = picture_code::picture_fault(progress.frame, words);
    earlier(in_sequence, fault)?;
    Ok(stages::picture_next(progress, picture_code::picture_of(words)))
}

fn judge_group(progress: Progress) -> Result<Progress, Fault>
    ensures { result ≡ judge (Header.Known Opcode.SliceGroup 8) progress [] }
{
    let unfinished = progress.position.row < progress.picture.grid.rows;
    let permitted = (progress.stage.pictured & !progress.stage.in_group) & unfinished;
    rule(3, 0, permitted)?;
    Ok(stages::group_next(progress))
}

fn judge_end(progress: Progress) -> Result<Progress, Fault>
    ensures { result ≡ judge (Header.Known Opcode.End 1) progress [] }
{
    let finished = progress.picture.grid.rows <= progress.position.row;
    let permitted = (progress.stage.pictured & !progress.stage.in_group) & finished;
    rule(3, 0, permitted)?;
    Ok(stages::end_next(progress))
}

// What a whole command comes to.
pub fn judge(header: Header, progress: Progress, words: &[u32]) -> Result<Progress, Fault>
    ensures { result ≡ judge header progress words.now }
{
    match header {
        Header::Known(Opcode::Noop, _) => Ok(progress),
        Header::Known(Opcode::End, _) => judge_end(progress),
        Header::Known(Opcode::Surface, _) => judge_surface(progress, words),
        Header::Known(Opcode::Picture, _) => judge_picture(progress, words),
        Header::Known(Opcode::SliceGroup, _) => judge_group(progress),
        Header::Known(Opcode::Macroblock, _) => placement_code::judge_macroblock(progress, words),
        Header::Carried(_) => rule(3, 0, !progress.stage.grouped).and(Ok(progress)),
        Header::Unknown => Err(Fault {
            number: 2,
            place: 0,
        }),
    }
}
