// The answer after the parts that have been handed over.
ghost use Rattle.parts.specs.States.{Answered};

use crate::holding;
use answers::Fault;
use batch::{Refusal, Reported};
use parts::State;

// The answer to all words so far, taken as a whole batch.
pub fn answer(state: State) -> Result<Reported, Refusal>
    ensures { Answered state result }
{
    if let Some(fault) = state.fault {
        return Err(Refusal::Broken(fault));
    }
    if state.progress.stage.ended {
        let progress = state.progress;
        let lengths = state.lengths;
        return batch_code::report_of(progress, lengths);
    }
    let held = holding::held_words(state);
    Err(Refusal::Broken(Fault {
        number: 1,
        place: state.at as u64 + held as u64,
    }))
}
