// Of two answers the one that is given, and what a rule answers.
#![tactic(auto)]

ghost use Rattle.std.specs.Prelude.{◌≡◌};
ghost use Rattle.answers.specs.Answers.{rule, answer_by, earlier};

use answers::Fault;

// Of two answers the one that is given: the lower place, and of two at one place the one with the smaller number.
pub fn earlier(a: Result<(), Fault>, b: Result<(), Fault>) -> Result<(), Fault>
    ensures { result ≡ earlier a b }
{
    let Err(first) = a else {
        return b;
    };
    let Err(second) = b else {
        return a;
    };
    if (second.place, second.number) < (first.place, first.number) {
        b
    } else {
        a
    }
}

// The number of a rule is a number and no enum: document 01 names and orders its rules by numbers (`before`), and each table says its own.

// What a rule answers: accepted where it holds, else its number and place. Rules in the order of their places and numbers are judged one behind
// the other, with `and`.
pub fn rule(number: u8, place: u64, holds: bool) -> Result<(), Fault>
    ensures { result ≡ answer_by (rule number place holds) }
{
    if holds {
        Ok(())
    } else {
        Err(Fault { number, place })
    }
}
