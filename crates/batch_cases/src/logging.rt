// Decoding a batch into a lent log, and printing what it holds afterwards.
use crate::printing::Shown;
use batch::Lengths;
use std::{fmt, io};

// What the log holds before: byte i is 37·i + 11, modulo 256.
fn fill(log: &mut [u8]) {
    let mut byte: u8 = 11;
    for b in log {
        *b = byte;
        byte = byte.wrapping_add(37);
    }
}

// Bytes in hexadecimal digits, or a dash for none.
#[derive(Clone, Copy)]
struct Hex<'a>(&'a [u8]);

impl fmt::Display for Hex<'_> {
    fn fmt<W: fmt::Write>(&self, f: &mut fmt::Formatter<W>) -> fmt::Result {
        if self.0.is_empty() {
            return write!(f, "-");
        }
        for byte in self.0 {
            write!(f, "{byte:02x}")?;
        }
        Ok(())
    }
}

// Prints the report and the whole log afterwards, with no line end.
pub fn print_decoded(
    rt: &impl Print,
    words: &[u32],
    lengths: Lengths,
    log: &mut [u8],
) -> io::Result<()> {
    fill(log);
    let report = Shown::from(decoding_code::decode(words, lengths, log));
    print!(rt; "{report} {}", Hex(log))
}
