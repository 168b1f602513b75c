// Walking through the commands of a run of words.
ghost use Rattle.std.specs.Prelude.{◌≡◌, ◌+◌, ◌-◌, ◌≤◌, length};
ghost use mathlib.Core.List.{[], foldl};
ghost use Rattle.batch.specs.Walk.{limit, going, step, walk_of};
ghost use Rattle.batch.specs.Passing.{PassedOver};

use answers::Fault;
use commands::NextCommand;
use headers::{Header, MACROBLOCK_HEADER};
use progress::{Progress, Taken};

// The word behind those, from one on, that change nothing: a zero word, which is a NOOP before END and may follow END, and, unless END has come, a carried command before the
// first group. They are passed over in a loop of their own: among turns that change the progress, the compiler makes what a row needs of it anew
// for each of them.
#[inline(always)]
fn passed_over(progress: Progress, base: u32, from: usize, words: &[u32]) -> usize
    requires { (base + length words.now ≤ limit) × (from ≤ length words.now) }
    ensures { PassedOver progress base from words.now result }
{
    let carried = !(progress.stage.grouped | progress.stage.ended);
    let mut at = from;
    // A loop by hand: a turn takes as many words as the command that stands there.
    while at < words.len() {
        let word = words[at];
        if word == 0 {
            at += 1;
            continue;
        }
        if !carried {
            break;
        }
        let NextCommand::Whole(header, n) = commands_code::next_command(&words[at..]) else {
            break;
        };
        let Header::Carried(_) = header else {
            break;
        };
        at += n;
    }
    at
}

// A run of words that ends within the words that are judged. What is not passed over is judged where it stands.
fn walk_within(progress: Progress, base: u32, words: &[u32]) -> Result<Taken, Fault>
    requires { base + length words.now ≤ limit }
    ensures { walk_of base words.now result ≡ foldl step (going base progress []) words.now }
{
    let mut p = progress;
    let mut at = 0;
    // A loop by hand: a turn takes as many words as the command, or the row of macroblocks, that stands there.
    while at < words.len() {
        at = passed_over(p, base, at, words);
        if at == words.len() {
            break;
        }
        let place = base as u64 + at as u64;
        if p.stage.ended {
            return Err(Fault { number: 12, place });
        }
        if words[at] == MACROBLOCK_HEADER && p.stage.in_group {
            let row = rows_code::judge_row(p, &words[at..]);
            if row.used != 0 {
                p = row.progress;
                at += row.used;
                continue;
            }
        }
        match commands_code::next_command(&words[at..]) {
            NextCommand::Unknown => return Err(Fault { number: 2, place }),
            NextCommand::Incomplete => break,
            // One that is not passed over: a group has come. The judge says the same, but the compiler does not know that it never hands the progress on.
            NextCommand::Whole(Header::Carried(_), _) => return Err(Fault { number: 3, place }),
            NextCommand::Whole(header, n) => {
                let end = at + n;
                // A `match`: of `map_err` and its closure the check does not find what the call asks for.
                match sequence_code::judge(header, p, &words[at..end]) {
                    Ok(next) => {
                        p = next;
                        at = end;
                    }
                    Err(fault) => {
                        return Err(Fault {
                            number: fault.number,
                            place: place + fault.place,
                        });
                    }
                }
            }
        }
    }
    Ok(Taken {
        progress: p,
        used: at,
    })
}

// The words that are judged from word base on. A call, so that no proof meets the number as the length of a part.
fn room_from(base: u32) -> usize
    ensures { result ≡ limit - base }
{
    (u32::MAX - base) as usize
}

// A run of words, the first of them at word base of the batch, from a progress.
pub fn walk(progress: Progress, base: u32, words: &[u32]) -> Result<Taken, Fault>
    ensures { walk_of base words.now result ≡ foldl step (going base progress []) words.now }
{
    let room = room_from(base);
    if words.len() <= room {
        return walk_within(progress, base, words);
    }
    walk_within(progress, base, &words[..room])?;
    Err(Fault {
        number: 27,
        place: u32::MAX as u64,
    })
}
