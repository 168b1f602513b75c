// Runs the stored cases of single commands and records and prints a line for each. A case is 52 bytes of standard input:
//   0 sort (0 a header, 1 a command read alone, 2 a record written alone), 1 how many words or bytes are handed in,
//   2 how many bytes or words are lent, 3 what each lent byte holds before; 4 to 51 the words, little-endian, or the bytes
// A header's line has its word, its name and its count of words. The others have the answer's number and place, and the lent
// memory afterwards. rust/reference writes the cases and the lines that are due.
#![tactic(auto)]

ghost use Rattle.std.specs.Prelude.{◌+◌, ◌≤◌};

use answers::Fault;
use headers::{Header, Opcode};
use std::fmt::Radix;
use std::io::{ErrorKind, Read};
use std::{fmt, io};

// How many words a case hands in, and how many are lent, at most.
const WORDS: usize = 12;

// How many bytes are lent at most.
const BYTES: usize = 32;

type Case = [u8; 52];

// The word whose bytes stand in a case from a place on. Each program of cases has its own: what differs is the bound.
fn word_at(case: &Case, at: usize) -> u32
    requires { at + 4 ≤ 52 }
{
    fields_code::number32(case[at], case[at + 1], case[at + 2], case[at + 3])
}

// The words that a case hands in, and zeros after them.
fn words_in(case: &Case) -> [u32; WORDS] {
    let mut words = [0u32; WORDS];
    for (i, word) in words.iter_mut().enumerate() {
        *word = word_at(case, 4 + 4 * i);
    }
    words
}

// No `Display`: the type is of another crate, which has definitions and so declares no function.
fn name_of(opcode: Opcode) -> &'static str {
    match opcode {
        Opcode::Noop => "NOOP",
        Opcode::End => "END",
        Opcode::Surface => "SURFACE",
        Opcode::Picture => "PICTURE",
        Opcode::SliceGroup => "SLICEGROUP",
        Opcode::Macroblock => "MACROBLOCK",
    }
}

// An answer as a number and a place.
#[derive(Clone, Copy)]
struct Numbers(Result<(), Fault>);

impl fmt::Display for Numbers {
    fn fmt<W: fmt::Write>(&self, f: &mut fmt::Formatter<W>) -> fmt::Result {
        match self.0 {
            Ok(()) => write!(f, "0 0"),
            Err(fault) => write!(f, "{} {}", fault.number, fault.place),
        }
    }
}

// Bytes or words in so many hexadecimal digits each.
#[derive(Clone, Copy)]
struct Hex<'a, T, const DIGITS: usize>(&'a [T]);

impl<T: Radix + Copy, const DIGITS: usize> fmt::Display for Hex<'_, T, DIGITS> {
    fn fmt<W: fmt::Write>(&self, f: &mut fmt::Formatter<W>) -> fmt::Result {
        for number in self.0 {
            write!(f, "{number:0DIGITS$x}")?;
        }
        Ok(())
    }
}

fn header_case(rt: &impl Print, case: &Case) -> io::Result<()> {
    let word = word_at(case, 4);
    match headers_code::read_header(word) {
        Header::Known(opcode, count) => {
            println!(rt; "header {word:08x} {} {count}", name_of(opcode))
        }
        Header::Carried(count) => println!(rt; "header {word:08x} carried {count}"),
        Header::Unknown => println!(rt; "header {word:08x} none"),
    }
}

// Two sorts and two functions: a command's words are read into bytes, a record's bytes are written into words.
fn command_case(rt: &impl Print, case: &Case) -> io::Result<()> {
    let words = words_in(case);
    let mut room = [case[3]; BYTES];
    let (Some(given), Some(lent)) = (
        words.get(..case[1] as usize),
        room.get_mut(..case[2] as usize),
    ) else {
        return Ok(());
    };
    let answer = records_code::read_command(given, lent);
    println!(rt; "read {} {}", Numbers(answer), Hex::<_, 2>(lent))
}

fn record_case(rt: &impl Print, case: &Case) -> io::Result<()> {
    let bytes = &case[4..];
    let before = case[3];
    let mut room = [fields_code::number32(before, before, before, before); WORDS];
    let (Some(given), Some(lent)) = (
        bytes.get(..case[1] as usize),
        room.get_mut(..case[2] as usize),
    ) else {
        return Ok(());
    };
    let answer = records_code::write_command(given, lent);
    println!(rt; "write {} {}", Numbers(answer), Hex::<_, 8>(lent))
}

fn run_case(rt: &impl Print, case: &Case) -> io::Result<()> {
    match case[0] {
        0 => header_case(rt, case),
        1 => command_case(rt, case),
        2 => record_case(rt, case),
        _ => Ok(()),
    }
}

// The loop stands in leaf_cases too: a library for these lines would need definitions, a contract and must-fail edits of its own.
fn main(rt: HostRuntime) -> io::Result<()> {
    let mut input = rt.stdin();
    let mut case = [0u8; 52];
    for _ in 0..100000u32 {
        match input.read_exact(&mut case) {
            Ok(()) => run_case(&rt, &case)?,
            Err(e) if e.kind() == ErrorKind::UnexpectedEof => break,
            Err(e) => return Err(e),
        }
    }
    Ok(())
}
