// Runs the stored batches through the checker and the decoder and prints a line for each. A case on standard input, all numbers
// little-endian:
//   0 how many words (4 bytes), 4 the lengths of the four buffers (8 each), 36 0 for the check, or one more than how many bytes of
//   log are lent for decoding (4), 40 the words (4 each)
// Each batch is checked whole, in two parts at every cut, and word by word. rust/reference writes the cases and the lines that
// are due.
#![tactic(auto)]

mod comparing;
mod logging;
mod printing;
mod reading;

use batch::Lengths;
use printing::Shown;
use reading::{Case, Failure};
use std::io;
use std::io::Read;

// Room for the longest stored batch.
const WORDS: usize = 2000;

// Room for the longest stored log.
const LOG: usize = 2000;

// Prints the line of a batch. Where an answer in parts is another, more stands behind it, so that the line is not the one due.
fn print_line(
    rt: &impl Print,
    words: &[u32],
    lengths: Lengths,
    lent: Option<u32>,
) -> io::Result<()> {
    let whole = Shown::from(batch_code::check(words, lengths));
    match lent {
        None => print!(rt; "{whole}")?,
        Some(bytes) => {
            let mut log = [0u8; LOG];
            match log.get_mut(..bytes as usize) {
                Some(lent) => logging::print_decoded(rt, words, lengths, lent)?,
                None => print!(rt; "log too long")?,
            }
        }
    }
    comparing::compare(rt, words, lengths, whole)?;
    println!(rt)
}

// Runs a case, the words of which come next.
fn run_case(
    rt: &impl Print,
    input: &mut impl Read,
    room: &mut [u32],
    case: Case,
) -> Result<(), Failure> {
    let words = room.get_mut(..case.count).ok_or(Failure::Bad)?;
    reading::read_words(input, words)?;
    print_line(rt, words, case.lengths, case.lent)?;
    Ok(())
}

// Runs all cases.
fn run(rt: &impl Print, input: &mut impl Read) -> Result<(), Failure> {
    let mut room = [0u32; WORDS];
    for _ in 0..100000u32 {
        let Some(case) = reading::read_head(input)? else {
            break;
        };
        run_case(rt, input, &mut room, case)?;
    }
    Ok(())
}

fn main(rt: HostRuntime) -> io::Result<()> {
    match run(&rt, &mut rt.stdin()) {
        Ok(()) => Ok(()),
        Err(Failure::Bad) => println!(rt; "bad input"),
        Err(Failure::Io(e)) => Err(e),
    }
}
