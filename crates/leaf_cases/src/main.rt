// Runs the stored cases of the leaf crates and prints a line for each. A case is 24 bytes of standard input, little-endian:
//   0 sort (0 fields of a word, else a block)
//   fields: 2 hi, 3 lo, 4 word (4 bytes), 16 value (4)
//   block: 1 structure (1 top field, 2 bottom field, else frame), 2 first chroma row (2), 4 pitch (4), 8 W, 10 H, 12 X, 14 Y (2 each), 16 vector word (4), 20 and 21 f codes of x and y,
//     22 the number of document 01's case, or 0
// A block's line has its vector's word, `beyond` where the vector is beyond its f codes (rule 9), else `range`, and `outside`
// where the block is not in the picture (rule 10), else `inside`, its end and its first byte. rust/reference writes the cases and the
// lines that are due.
#![tactic(auto)]

ghost use Rattle.std.specs.Prelude.{◌+◌, ◌≤◌};

use prediction::{Extent, Grid, Position, Structure, Surface};
use prediction_code::extents;
use std::io::{ErrorKind, Read};
use std::{fmt, io};

type Case = [u8; 24];

// The numbers that stand in a case from a place on. Each program of cases has its own: what differs is the bound.
fn half_at(case: &Case, at: usize) -> u16
    requires { at + 2 ≤ 24 }
{
    fields_code::number16(case[at], case[at + 1])
}

fn word_at(case: &Case, at: usize) -> u32
    requires { at + 4 ≤ 24 }
{
    fields_code::number32(case[at], case[at + 1], case[at + 2], case[at + 3])
}

// What stands before the line of one of document 01's cases: its number, which is not 0.
#[derive(Clone, Copy)]
struct Label(u8);

impl fmt::Display for Label {
    fn fmt<W: fmt::Write>(&self, f: &mut fmt::Formatter<W>) -> fmt::Result {
        match self.0 {
            0 => Ok(()),
            number => write!(f, "P{number} "),
        }
    }
}

// What a block touches.
#[derive(Clone, Copy)]
struct Touched(Option<Extent>);

impl fmt::Display for Touched {
    fn fmt<W: fmt::Write>(&self, f: &mut fmt::Formatter<W>) -> fmt::Result {
        match self.0 {
            None => write!(f, "outside"),
            Some(extent) => {
                let touched = extents::join(extents::empty(), extent);
                write!(f, "inside {} {}", touched.end, touched.first)
            }
        }
    }
}

fn fields_case(rt: &impl Print, case: &Case) -> io::Result<()> {
    let hi = case[2];
    let lo = case[3];
    let word = word_at(case, 4);
    let bits = fields_code::bits(word, hi, lo);
    let changed = fields_code::with_bits(word, hi, lo, word_at(case, 16));
    println!(rt; "{bits:08x} {changed:08x}")
}

// A structure by its number in a case. No `From`: both types are of other crates, and one with definitions declares no function.
fn structure_of(number: u8) -> Structure {
    match number {
        1 => Structure::TopField,
        2 => Structure::BottomField,
        _ => Structure::Frame,
    }
}

fn block_case(rt: &impl Print, case: &Case) -> io::Result<()> {
    let structure = structure_of(case[1]);
    let surface = Surface {
        pitch: word_at(case, 4),
        chroma_row: half_at(case, 2),
    };
    let grid = Grid {
        columns: half_at(case, 8),
        rows: half_at(case, 10),
    };
    let position = Position {
        column: half_at(case, 12),
        row: half_at(case, 14),
    };
    let vector = prediction_code::vector_of(word_at(case, 16));
    let word = prediction_code::word_of(vector);
    let range = if prediction_code::vector_in_range(structure, vector, case[20], case[21]) {
        "range"
    } else {
        "beyond"
    };
    let block = prediction_code::block_at(structure, surface, grid, position, vector);
    println!(rt; "{}{word:08x} {range} {}", Label(case[22]), Touched(block))
}

fn run_case(rt: &impl Print, case: &Case) -> io::Result<()> {
    match case[0] {
        0 => fields_case(rt, case),
        _ => block_case(rt, case),
    }
}

// The loop stands in command_cases too: a library for these lines would need definitions, a contract and must-fail edits of its own.
fn main(rt: HostRuntime) -> io::Result<()> {
    let mut input = rt.stdin();
    let mut case = [0u8; 24];
    for _ in 0..100000u32 {
        match input.read_exact(&mut case) {
            Ok(()) => run_case(&rt, &case)?,
            Err(e) if e.kind() == ErrorKind::UnexpectedEof => break,
            Err(e) => return Err(e),
        }
    }
    Ok(())
}
