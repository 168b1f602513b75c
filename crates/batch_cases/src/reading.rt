// Reading cases from standard input.
ghost use Rattle.std.specs.Prelude.{◌+◌, ◌≤◌};

use batch::Lengths;
use std::io;
use std::io::{ErrorKind, Read};

// How many bytes stand before the words of a case.
const HEAD: usize = 40;

// A case whose words are next: their count, the lengths, and how many bytes of log are lent if it is to be decoded.
#[derive(Clone, Copy)]
pub struct Case {
    pub count: usize,
    pub lengths: Lengths,
    pub lent: Option<u32>,
}

// Why no case is run any more: the input is none, or it cannot be read or the line not be printed.
#[derive(Clone, Copy)]
pub enum Failure {
    Bad,
    Io(io::Error),
}

impl From<io::Error> for Failure {
    fn from(e: io::Error) -> Failure {
        Failure::Io(e)
    }
}

// Fills the bytes from the input, and answers whether that has as many.
fn is_filled(input: &mut impl Read, bytes: &mut [u8]) -> io::Result<bool> {
    match input.read_exact(bytes) {
        Ok(()) => Ok(true),
        Err(e) if e.kind() == ErrorKind::UnexpectedEof => Ok(false),
        Err(e) => Err(e),
    }
}

// Fills bytes that have to come.
fn fill(input: &mut impl Read, bytes: &mut [u8]) -> Result<(), Failure> {
    if is_filled(input, bytes)? {
        return Ok(());
    }
    Err(Failure::Bad)
}

// Fills the words from the input.
pub fn read_words(input: &mut impl Read, words: &mut [u32]) -> Result<(), Failure> {
    let mut bytes = [0u8; 4];
    for word in words {
        fill(input, &mut bytes)?;
        *word = fields_code::number32(bytes[0], bytes[1], bytes[2], bytes[3]);
    }
    Ok(())
}

// Each program of cases has its own: what differs is the bound.
fn number32(head: &[u8; HEAD], at: usize) -> u32
    requires { at + 4 ≤ 40 }
{
    fields_code::number32(head[at], head[at + 1], head[at + 2], head[at + 3])
}

fn number64(head: &[u8; HEAD], at: usize) -> u64
    requires { at + 8 ≤ 40 }
{
    let low = number32(head, at) as u64;
    let high = number32(head, at + 4) as u64;
    low + high * 4294967296
}

// What stands before the words of the next case, unless the input ends before it.
pub fn read_head(input: &mut impl Read) -> Result<Option<Case>, Failure> {
    let mut head = [0u8; HEAD];
    if !is_filled(input, &mut head[..1])? {
        return Ok(None);
    }
    fill(input, &mut head[1..])?;
    let lengths = Lengths {
        source: number64(&head, 4),
        reconstructed: number64(&head, 12),
        forward: number64(&head, 20),
        backward: number64(&head, 28),
    };
    Ok(Some(Case {
        count: number32(&head, 0) as usize,
        lengths,
        lent: number32(&head, 36).checked_sub(1),
    }))
}
