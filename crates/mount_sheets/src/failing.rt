// What goes wrong, and how it is said on standard error.
use std::io::{Cursor, Write};
use std::{fmt, io};

// The longest that the text of an error is taken for.
const LONGEST: usize = 256;

// Why what was asked for was not done, or not shown, with the system's error where it has one.
#[derive(Clone, Copy)]
pub enum Failure {
    Arguments,
    Name,
    Missing(io::Error),
    Unreadable(io::Error),
    TooLong,
    NoEnd,
    Unopened(io::Error),
    OtherLength,
    PartWritten,
    Unwritten(io::Error),
    CutBack,
    NotCutBack(io::Error),
    Unsure(io::Error),
    Unprinted(io::Error),
    AddedUnprinted(io::Error),
}

// The system's words for an error, with no number behind them.
#[derive(Clone, Copy)]
struct Words(io::Error);

impl fmt::Display for Words {
    fn fmt<W: fmt::Write>(&self, f: &mut fmt::Formatter<W>) -> fmt::Result {
        let mut line = Cursor::new([0u8; LONGEST]);
        let _ = write!(line, "{}", self.0);
        let len = line.position() as usize;
        let bytes = line.into_inner();
        let text = str::from_utf8(&bytes[..len.min(LONGEST)]).unwrap_or("");
        let words = match text.split_once(" (os error ") {
            Some((words, _)) => words,
            None => text,
        };
        f.write_str(words)
    }
}

impl Failure {
    // What failed, or where nothing but that is known, why.
    fn what(&self) -> &str {
        match self {
            Failure::Arguments => {
                "the arguments are FILE ask BOAT EDITION, FILE add BOAT EDITION SIDE, FILE list [BOAT] or shift SIDE X Y"
            }
            Failure::Name => "the name of the file is not UTF-8, and no other can be opened",
            Failure::Missing(_) | Failure::Unreadable(_) => "the file cannot be read",
            Failure::TooLong => "the file is longer than 1048576 bytes, the most that is taken",
            Failure::NoEnd => "the file cannot be read to its end",
            Failure::Unopened(_) => {
                "nothing was added, since the file cannot be opened for writing"
            }
            Failure::OtherLength => {
                "nothing was added, since the file has another length than when it was read: something else writes to it"
            }
            Failure::PartWritten => {
                "nothing was added, since only a part of the sheet could be written: the disk may be full"
            }
            Failure::Unwritten(_) => "nothing was added, since the sheet could not be written",
            Failure::CutBack => "the file was cut back to its old length",
            Failure::NotCutBack(_) => {
                "the file cannot be cut back to its old length, and may now end with a part of a sheet"
            }
            Failure::Unsure(_) => "the sheet was added, but may not be on the disk",
            Failure::Unprinted(_) => "standard output cannot be written",
            Failure::AddedUnprinted(_) => {
                "the sheet was added, but standard output cannot be written"
            }
        }
    }

    // The system's error behind it.
    fn why(&self) -> Option<io::Error> {
        match *self {
            Failure::Missing(e)
            | Failure::Unreadable(e)
            | Failure::Unopened(e)
            | Failure::Unwritten(e)
            | Failure::NotCutBack(e)
            | Failure::Unsure(e)
            | Failure::Unprinted(e)
            | Failure::AddedUnprinted(e) => Some(e),
            _ => None,
        }
    }
}

impl fmt::Display for Failure {
    fn fmt<W: fmt::Write>(&self, f: &mut fmt::Formatter<W>) -> fmt::Result {
        f.write_str(self.what())?;
        match self.why() {
            Some(e) => write!(f, ": {}", Words(e)),
            None => Ok(()),
        }
    }
}

// Says it. Where standard error cannot be written either, nothing is left to say that on.
pub fn say(rt: &impl Eprint, failure: Failure) {
    let _ = eprintln!(rt; "mount_sheets: {failure}");
}
