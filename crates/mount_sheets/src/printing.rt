// Lines for standard output: single ones, and those of a list, which are gathered.
use crate::failing::Failure;
use answers::Fault;
use mounts::{Sheet, Shift};
use std::io::{Cursor, Write};
use std::{fmt, io};

// How many bytes are gathered at most.
const CAPACITY: usize = 65536;

// The longest that a line of a list is.
const LONGEST: usize = 32;

// Lines of a list, printed together when there is no room for another.
#[derive(Drop)]
pub struct Gathered {
    lines: Cursor<[u8; CAPACITY]>,
}

impl Gathered {
    pub fn new() -> Gathered {
        Gathered {
            lines: Cursor::new([0u8; CAPACITY]),
        }
    }

    pub fn put(&mut self, rt: &impl Print, line: impl fmt::Display + Drop) -> io::Result<()> {
        let mut text = Cursor::new([0u8; LONGEST]);
        text.writeln(line)?;
        let len = text.position() as usize;
        if len > CAPACITY.saturating_sub(self.lines.position() as usize) {
            self.print(rt)?;
        }
        self.lines.write_all(&text.get_ref()[..len.min(LONGEST)])
    }

    // Prints what is gathered.
    pub fn print(&mut self, rt: &impl Print) -> io::Result<()> {
        let len = self.lines.position() as usize;
        rt.write_all(&self.lines.get_ref()[..len.min(CAPACITY)])?;
        self.lines.set_position(0);
        Ok(())
    }
}

// Single lines. A function for each: they differ in their text, which `println!` takes as a literal.
pub fn found(rt: &impl Print, sheet: Sheet) -> Result<(), Failure> {
    println!(rt; "found {} {}", sheet.edition, sheet.side).map_err(Failure::Unprinted)
}

pub fn refusal(rt: &impl Print, fault: Fault) -> Result<(), Failure> {
    println!(rt; "refuse {} {}", fault.number, fault.place).map_err(Failure::Unprinted)
}

pub fn vector(rt: &impl Print, vector: Shift) -> Result<(), Failure> {
    println!(rt; "vector {} {}", vector.x, vector.y).map_err(Failure::Unprinted)
}

pub fn added(rt: &impl Print, count: u64) -> Result<(), Failure> {
    println!(rt; "added {count}").map_err(Failure::AddedUnprinted)
}
