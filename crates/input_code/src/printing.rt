// A report as a line of text.
ghost use Rattle.std.specs.Prelude.{◌≡◌, List, ℕ, [], ◌∷◌, ◌++◌, ◌+◌, ◌*◌, ◌≤◌, length, take};
ghost use Rattle.input.specs.Text.{ascii, decimal, spaced};
ghost use Rattle.input.specs.Line.{text_of, report_line};
ghost use Rattle.input.specs.Input.{output_line};

use answers::Fault;
use batch::{Refusal, Reported};
use input::OutputLine;
use std::marker::Model;

// A text that has room in a line, as the line that holds it.
#[derive(Drop)]
struct Text {
    line: OutputLine,
}

impl Model for Text {
    ghost Value = { List ℕ };

    ghost view = { λ t. take t.line.len t.line.bytes };

    ghost invariant = { λ t. (t.line.len ≤ 256) × (t.line ≡ output_line (take t.line.len t.line.bytes)) };
}

impl Text {
    fn new() -> Self
        ensures { result ≡ [] }
    {
        Text {
            line: OutputLine {
                bytes: [0u8; 256],
                len: 0,
            },
        }
    }

    // Some bytes behind those of the text. Room is asked for at each step, here and below: how much is left differs.
    fn put(&mut self, bytes: &[u8])
        requires { length self.old + length bytes.now ≤ 256 }
        ensures { self.new ≡ self.old ++ bytes.now }
    {
        let old = self.line;
        self.line = OutputLine {
            bytes: lists_code::append(old.bytes, old.len, bytes),
            len: old.len + bytes.len(),
        };
    }

    // A number in decimal.
    fn put_decimal(&mut self, n: u64)
        requires { length self.old + 20 ≤ 256 }
        ensures { self.new ≡ self.old ++ decimal n }
    {
        let mut digits = [0u8; 20];
        let count = io::decimal(n, &mut digits);
        self.put(&digits[..count]);
    }

    // Numbers, each with a space before it.
    fn put_numbers(&mut self, numbers: &[u64])
        requires { length self.old + 21 * length numbers.now ≤ 256 }
        ensures { self.new ≡ self.old ++ spaced numbers.now }
    {
        for n in numbers {
            self.put(b" ");
            self.put_decimal(*n);
        }
    }

    fn line(&self) -> OutputLine
        ensures { (result ≡ output_line self.now) × (result.len ≤ 256) }
    {
        self.line
    }
}

// `refuse`, number and place.
fn refused(fault: Fault) -> Text
    ensures { result ≡ ascii "refuse" ++ spaced (fault.number ∷ fault.place ∷ []) }
{
    let mut text = Text::new();
    text.put(b"refuse");
    text.put_numbers(&[fault.number as u64, fault.place]);
    text
}

fn text_of(report: Result<Reported, Refusal>) -> Text
    ensures { (result ≡ text_of report) × (length result ≤ 255) }
{
    match report {
        Ok(reported) => {
            let mut text = Text::new();
            text.put(b"accept");
            text.put_numbers(&batch_code::values_of(reported));
            text
        }
        Err(Refusal::Short(fault, reported)) => {
            let mut text = refused(fault);
            text.put_numbers(&batch_code::values_of(reported));
            text
        }
        Err(Refusal::Broken(fault)) => refused(fault),
    }
}

// The line of a report.
pub(crate) fn line_for(report: Result<Reported, Refusal>) -> OutputLine
    ensures { (result ≡ output_line (report_line report)) × (result.len ≤ 256) }
{
    let mut text = text_of(report);
    text.put(b"\n");
    text.line()
}
