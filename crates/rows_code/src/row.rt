// A row of macroblocks.
ghost use Rattle.std.specs.Prelude.{◌≡◌, ℕ, ◌+◌, ◌*◌, ◌-◌, ◌/◌, ◌≤◌, ◌<◌, length};
ghost use Rattle.rows.specs.Rows.{TakenFrom, AfterRow, OpenRow};
ghost use Rattle.rows.specs.Touching.{forward_after, backward_after, Seen};
ghost use Rattle.rows.specs.Words.{due_bits};

use crate::after;
use crate::looking::Look;
use crate::stepping::Row;
use prediction::Extent;
use progress::{Progress, Taken};
use rows::Ends;

// The bound bits of word 4 of a macroblock: whether a slice and a group begin with it.
#[tactic(auto, unfolding(rows::specs::Words::due_bits))]
fn due_bits(slice: bool, group: bool) -> u32
    ensures { result ≡ due_bits slice group }
{
    match (slice, group) {
        (true, true) => 0x4100_0000,
        (true, false) => 0x4000_0000,
        (false, true) => 0x0100_0000,
        (false, false) => 0,
    }
}

// The column behind the last of which a whole command can stand in so many words.
fn limit_of(words: usize, first: u16, columns: u16) -> u16
    requires { first ≤ columns }
    ensures { (first ≤ result) × (result ≤ columns) × (9 * (result - first) ≤ words) }
{
    let left = columns - first;
    first + (words / 9).min(left as usize) as u16
}

// The bounds on the count are of the words, which no value here holds.

// What is touched of a reference after so many commands, by them or before them, up to `end`. A look is made ready only where that is something.
#[inline(always)]
#[tactic(auto, using(rows::proofs::TouchedLaws::after_nothing))]
fn forward_after(progress: Progress, end: u64, count: usize, words: &[u32]) -> Extent
    requires { (9 * count ≤ length words.now) × (progress.position.column + count < 65536) × ((b : ℕ) × Seen progress words.now count end b) }
    ensures { result ≡ forward_after progress words.now count }
{
    let extent = progress.extents.forward;
    if end == 0 {
        return Extent { end, ..extent };
    }
    Look::forward(progress).touched(extent, end, count, words)
}

#[inline(always)]
#[tactic(auto, using(rows::proofs::TouchedLaws::after_nothing))]
fn backward_after(progress: Progress, end: u64, count: usize, words: &[u32]) -> Extent
    requires { (9 * count ≤ length words.now) × (progress.position.column + count < 65536) × ((f : ℕ) × Seen progress words.now count f end) }
    ensures { result ≡ backward_after progress words.now count }
{
    let extent = progress.extents.backward;
    if end == 0 {
        return Extent { end, ..extent };
    }
    Look::backward(progress).touched(extent, end, count, words)
}

// What the commands before word `at` come to. `ends` are those of what they touch of the references.
fn taken(progress: Progress, at: usize, ends: Ends, words: &[u32]) -> Taken
    requires { (at ≤ length words.now) × (progress.position.column + at / 9 < 65536) × (1 ≤ at → 9 ≤ at) × Seen progress words.now (at / 9) ends.forward ends.backward }
    ensures { AfterRow progress (progress.position.column + at / 9) at words.now result }
{
    if at == 0 {
        return Taken { progress, used: 0 };
    }
    let count = at / 9;
    let last = progress.position.column + (count - 1) as u16;
    let backward = backward_after(progress, ends.backward, count, words);
    let forward = forward_after(progress, ends.forward, count, words);
    let next = after::after_row(progress, last, forward, backward, &words[at - 9..at]);
    Taken {
        progress: next,
        used: at,
    }
}

// The commands of a row that is open.
fn take_row(progress: Progress, words: &[u32]) -> Taken
    requires { OpenRow progress }
    ensures { TakenFrom progress words.now result }
{
    let row = Row::new(progress);
    let first = progress.position.column;
    let limit = limit_of(words.len(), first, progress.picture.grid.columns);
    let mut due = due_bits(!progress.stage.in_slice, progress.stage.group_start);
    let mut ends = Ends {
        forward: progress.extents.forward.end,
        backward: progress.extents.backward.end,
    };
    let mut used: usize = 0;
    // The commands by their place: over a zip with `chunks_exact` a macroblock takes up to a fourth more instructions.
    for column in first..limit {
        let before = &words[used.saturating_sub(9)..used];
        let command = &words[used..used + 9];
        let Some(next) = row.judge_next(column, due, ends, before, command) else {
            break;
        };
        ends = next;
        used += 9;
        let four = command[4];
        if fields_code::bits(four, 26, 26) != 0 {
            break;
        }
        due = due_bits(fields_code::is_set(four, 31), false);
    }
    taken(progress, used, ends, words)
}

// Takes MACROBLOCK commands that stand one behind the other, up to the end of the row or of the group, as far as they keep their
// rules. How many are taken is left to this function: none may be, and none are on a surface too narrow for a strip.
#[tactic(auto, using(rows::proofs::Going::nothing))]
pub fn judge_row(progress: Progress, words: &[u32]) -> Taken
    ensures { TakenFrom progress words.now result }
{
    let grid = progress.picture.grid;
    let position = progress.position;
    let open = progress.stage.in_group
        && position.row < grid.rows
        && position.column < grid.columns;
    if !open || progress.frame.surface.pitch < 16 {
        return Taken { progress, used: 0 };
    }
    take_row(progress, words)
}
