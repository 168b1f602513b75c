// A check from its beginning, and the next part of its batch.
ghost use Rattle.std.specs.Prelude.{◌≡◌, None, ◌≤◌, length};
ghost use mathlib.Core.List.{[], foldl};
ghost use Rattle.batch.specs.Walk.{going, stopped, step};
ghost use Rattle.parts.specs.States.{gathered, walk_in, Begun, Handed};

use crate::holding;
use answers::Fault;
use batch::Lengths;
use parts::State;

// A check with four buffers of these lengths, before its first word.
pub fn begin(lengths: Lengths) -> State
    ensures { Begun lengths result }
{
    let progress = progress_code::fresh();
    State {
        progress,
        at: 0,
        held: 0,
        fault: None,
        lengths,
        buffer: [0u32; 61],
    }
}

// The state of a check that has refused.
fn halted(state: State, fault: Fault) -> State
    ensures { (walk_in result ≡ stopped fault.number fault.place) × (result.lengths ≡ state.lengths) }
{
    let mut next = state;
    next.fault = Some(fault);
    next
}

// On from the beginning of the command in progress, whose words so far are the first of these words. They are judged where they
// stand; those of a command that is not complete are kept.
fn walk_on(state: State, words: &[u32]) -> State
    ensures { (walk_in result ≡ foldl step (going state.at state.progress []) words.now) × (result.lengths ≡ state.lengths) }
{
    let progress = state.progress;
    let at = state.at;
    match batch_code::walk(progress, at, words) {
        Err(fault) => halted(state, fault),
        Ok(taken) => {
            let used = taken.used;
            let old = state.buffer;
            let lengths = state.lengths;
            let buffer = lists_code::append(old, 0, &words[used..]);
            let begins = at + used as u32;
            let left = words.len() - used;
            State {
                progress: taken.progress,
                at: begins,
                held: left,
                fault: None,
                lengths,
                buffer,
            }
        }
    }
}

// A part behind the words that are held: first those that complete their command, then the others.
fn complete(state: State, held: usize, part: &[u32]) -> State
    requires { (state.fault ≡ None) × ((held ≡ length (gathered state)) × (1 ≤ held)) }
    ensures { Handed state part.now result }
{
    let old = state.buffer;
    let first = old[0];
    let n = commands_code::command_words(first);
    let need = n - held;
    if part.len() <= need {
        let buffer = lists_code::append(old, held, part);
        let end = held + part.len();
        return walk_on(state, &buffer[..end]);
    }
    let buffer = lists_code::append(old, held, &part[..need]);
    let next = walk_on(state, &buffer[..n]);
    if next.fault.is_some() {
        return next;
    }
    walk_on(next, &part[need..])
}

// The next part. After a refusal nothing changes.
pub fn hand_over(state: State, part: &[u32]) -> State
    ensures { Handed state part.now result }
{
    if state.fault.is_some() {
        return state;
    }
    let held = holding::held_words(state);
    if held == 0 {
        return walk_on(state, part);
    }
    complete(state, held, part)
}
