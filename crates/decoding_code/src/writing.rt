// The records of a batch's macroblocks, written to the log.
ghost use Rattle.std.specs.Prelude.{cond, [], ◌++◌, ◌≡◌, ◌+◌, ◌*◌, ◌≤◌, length, take, drop};
ghost use Rattle.fields.specs.Word.{flag};
ghost use Rattle.headers.specs.Headers.{begins};
ghost use Rattle.headers.specs.declared.Opcode.TheVariants.{Macroblock};
ghost use Rattle.commands.specs.Commands.{commands_of, macroblocks_in};
ghost use Rattle.decoding.specs.Logs.{record_alone, log_of};

use commands::NextCommand;
use headers::{Header, Opcode};

// Writes the record of a command, the k-th MACROBLOCK if it is one, to the k-th place of the log. Returns the number of the next.
fn write_next(header: Header, words: &[u32], k: usize, log: &mut [u8]) -> usize
    requires { 24 * (k + flag (begins Macroblock header)) ≤ length log.old }
    ensures { (result ≡ k + flag (begins Macroblock header)) × (log.new ≡ take (24 * k) log.old ++ (cond (begins Macroblock header) (record_alone words.now) [] ++ drop (24 * result) log.old)) }
{
    let Header::Known(Opcode::Macroblock, _) = header else {
        return k;
    };
    let macroblock = macroblock_code::macroblock_of(words);
    records_code::write_record(macroblock, &mut log[24 * k..]).unwrap();
    k + 1
}

// Writes the record of the k-th MACROBLOCK command to the k-th place of the log.
pub(crate) fn write_records(words: &[u32], log: &mut [u8])
    requires { 24 * length (macroblocks_in (commands_of words.now)) ≤ length log.old }
    ensures { log.new ≡ log_of words.now ++ drop (length (log_of words.now)) log.old }
{
    let mut at = 0;
    let mut k = 0;
    // A loop by hand: a turn takes as many words as the command that stands there.
    while let NextCommand::Whole(header, n) = commands_code::next_command(&words[at..]) {
        let end = at + n;
        k = write_next(header, &words[at..end], k, log);
        at = end;
    }
}
