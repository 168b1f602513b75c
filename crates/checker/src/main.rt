// Reads the lengths of the four picture buffers and a batch from standard input, and prints the checker's line. What is read and
// what is printed for it: the crate `input`.
#![tactic(auto)]

use std::fmt;
use std::io::Read;

// Why no line was printed.
#[derive(Clone, Copy)]
enum Failure {
    Unread,
    Unprinted,
}

impl fmt::Display for Failure {
    fn fmt<W: fmt::Write>(&self, f: &mut fmt::Formatter<W>) -> fmt::Result {
        f.write_str(match self {
            Failure::Unread => "checker: cannot read standard input",
            Failure::Unprinted => "checker: cannot write to standard output",
        })
    }
}

// Reads to the end of the input, a buffer at a time, and prints the line. A loop that is proved has to end, and nothing says that an
// input does: it counts its turns up to a number that no run reaches.
fn run(rt: &impl Print, source: &mut impl Read, buffer: &mut [u8]) -> Result<(), Failure> {
    let mut input = input_code::begin();
    for _ in 0..u64::MAX {
        let n = source.read(buffer).map_err(|_| Failure::Unread)?;
        if n == 0 {
            let line = input_code::answer(input);
            return rt
                .write_all(&line.bytes[..line.len])
                .map_err(|_| Failure::Unprinted);
        }
        input = input_code::hand_over(input, &buffer[..n]);
    }
    Err(Failure::Unread)
}

fn main(rt: HostRuntime) {
    let mut buffer = [0u8; 65536];
    if let Err(failure) = run(&rt, &mut rt.stdin(), &mut buffer) {
        // Where standard error cannot be written either, nothing is left to say it on.
        let _ = eprintln!(rt; "{failure}");
    }
}
