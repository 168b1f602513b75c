// The answer where an input ends.
ghost use Rattle.std.specs.Prelude.{◌≡◌};
ghost use Rattle.input.specs.Input.{finished, input_in, InputAnswered};

use crate::{holding, printing};
use answers::Fault;
use batch::{Refusal, Reported};
use input::{OutputLine, Stream};

// The answer to all bytes so far, taken as a whole input.
fn outcome(stream: Stream) -> Result<Reported, Refusal>
    ensures { result ≡ finished (input_in stream) }
{
    let Some(state) = stream.check else {
        let held = holding::held_bytes(stream, 32);
        return Err(Refusal::Broken(Fault {
            number: 16,
            place: held as u64,
        }));
    };
    let held = holding::held_bytes(stream, 4);
    let report = parts_code::answer(state);
    if held == 0 {
        return report;
    }
    let Ok(_) = report else {
        return report;
    };
    Err(Refusal::Broken(Fault {
        number: 1,
        place: state.at as u64,
    }))
}

// The line for all bytes so far, taken as a whole input.
pub fn answer(stream: Stream) -> OutputLine
    ensures { InputAnswered stream result }
{
    printing::line_for(outcome(stream))
}
