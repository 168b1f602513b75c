// Answers as numbers.
ghost use Rattle.std.specs.Prelude.{◌≡◌, Err};
ghost use Rattle.batch.specs.declared.Refusal.TheVariants.{Broken, Short};
ghost use Rattle.interface.specs.Summaries.{summary_of, outcome_of};

use answers::Fault;
use batch::{Lengths, Refusal, Reported};
use interface::{Outcome, Summary};
use progress::Extents;

// Functions and no impl of From: C's structs are of a crate of definitions, which has no code.

// The number and the place of what is accepted.
const ACCEPTED: Fault = Fault {
    number: 0,
    place: 0,
};

// A number and a place with what is reported.
fn measured(fault: Fault, reported: Reported) -> Summary
    ensures { result ≡ summary_of (Err (Short fault reported)) }
{
    let Extents {
        source,
        reconstructed,
        forward,
        backward,
    } = reported.extents;
    Summary {
        number: fault.number,
        place: fault.place,
        lengths: Lengths {
            source: source.end,
            reconstructed: reconstructed.end,
            forward: forward.end,
            backward: backward.end,
        },
        firsts: Lengths {
            source: source.first,
            reconstructed: reconstructed.first,
            forward: forward.first,
            backward: backward.first,
        },
    }
}

// A number and a place alone.
fn unmeasured(fault: Fault) -> Summary
    ensures { result ≡ summary_of (Err (Broken fault)) }
{
    let zeros = Lengths {
        source: 0,
        reconstructed: 0,
        forward: 0,
        backward: 0,
    };
    Summary {
        number: fault.number,
        place: fault.place,
        lengths: zeros,
        firsts: zeros,
    }
}

pub(crate) fn summary_of(report: Result<Reported, Refusal>) -> Summary
    ensures { result ≡ summary_of report }
{
    match report {
        Ok(reported) => measured(ACCEPTED, reported),
        Err(Refusal::Short(fault, reported)) => measured(fault, reported),
        Err(Refusal::Broken(fault)) => unmeasured(fault),
    }
}

pub(crate) fn outcome_of(answer: Result<(), Fault>) -> Outcome
    ensures { result ≡ outcome_of answer }
{
    let Fault { number, place } = answer.err().unwrap_or(ACCEPTED);
    Outcome { number, place }
}
