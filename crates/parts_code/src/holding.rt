// The words that are held of a command that is not complete.
ghost use Rattle.std.specs.Prelude.{◌≡◌, ◌≤◌, length};
ghost use Rattle.parts.specs.States.{gathered};

use parts::State;

// How many words the state holds of the command in progress.
pub(crate) fn held_words(state: State) -> usize
    ensures { (result ≡ length (gathered state)) × (result ≤ 60) }
{
    if state.progress.stage.ended {
        return 0;
    }
    let first = state.buffer[0];
    let held = state.held;
    if commands_code::command_words(first) <= held {
        return 0;
    }
    if 4294967295 < state.at as u64 + held as u64 {
        return 0;
    }
    held
}
