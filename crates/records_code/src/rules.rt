// Which byte of a record is bad.
ghost use Rattle.std.specs.Prelude.{◌≡◌, ◌+◌, ◌≤◌};
ghost use Rattle.answers.specs.Answers.{rule, judged, answer_by};
ghost use Rattle.records.specs.Alone.{record_fault};
ghost use Rattle.records.specs.RecordRules.{zero_bytes, unused_bytes, byte_rules, zero_rules, record_rules};

use crate::layout;
use crate::numbers::{BACKWARD, FILLER, FLAGS, FORWARD, KIND, PATTERN, QUANTISER, SKIP, byte_at};
use answers::Fault;
use answers_code::{earlier, rule};
use macroblock::Kept;

// A rule of a byte, or of the part that begins with it.
fn byte_rule(byte: usize, holds: bool) -> Result<(), Fault>
    ensures { result ≡ answer_by (rule 15 byte holds) }
{
    rule(15, byte as u64, holds)
}

// The first of some bytes that is not zero. That they lie in a record is asked by place: the bytes may be fewer.
#[tactic(auto, using(crate::proofs::ZeroBytes::zero_stops))]
fn zero_fault(bytes: &[u8], at: usize, count: usize) -> Result<(), Fault>
    requires { at + count ≤ 24 }
    ensures { result ≡ judged (zero_bytes bytes.now at count) }
{
    for i in at..at + count {
        byte_rule(i, byte_at(bytes, i) == 0)?;
    }
    Ok(())
}

fn unused_fault(bytes: &[u8], used: bool, at: usize, count: usize) -> Result<(), Fault>
    requires { at + count ≤ 24 }
    ensures { result ≡ judged (unused_bytes used bytes.now at count) }
{
    if used {
        Ok(())
    } else {
        zero_fault(bytes, at, count)
    }
}

// Bytes 6 to 12.
fn field_fault(bytes: &[u8], kept: Kept) -> Result<(), Fault>
    ensures { result ≡ judged (byte_rules bytes.now kept) }
{
    let kind = byte_at(bytes, KIND) <= 3;
    let skip = (byte_at(bytes, SKIP) <= 1) & kept.intra_not_skipped;
    let pattern = (byte_at(bytes, PATTERN) <= 63) & (kept.intra_pattern & kept.skip_pattern);
    let flags = (byte_at(bytes, FLAGS) <= 63) & kept.skip_inside_slice;
    byte_rule(KIND, kind)
        .and(byte_rule(SKIP, skip))
        .and(byte_rule(PATTERN, pattern))
        .and(byte_rule(QUANTISER, kept.quantiser))
        .and(byte_rule(FLAGS, flags))
}

fn zeros_fault(bytes: &[u8], kind: u8) -> Result<(), Fault>
    ensures { result ≡ judged (zero_rules bytes.now kind) }
{
    let forward = (kind == 1) | (kind == 3);
    let backward = (kind == 2) | (kind == 3);
    let filler = unused_fault(bytes, false, FILLER, 3);
    let first = unused_fault(bytes, forward, FORWARD, 4);
    let second = unused_fault(bytes, backward, BACKWARD, 4);
    earlier(filler, earlier(first, second))
}

// The first bad byte of 24.
#[tactic(auto, unfolding(records::specs::RecordRules::record_rules), using(answers::proofs::Judging::judged_append))]
fn first_bad(bytes: &[u8]) -> Result<(), Fault>
    ensures { result ≡ judged (record_rules bytes.now) }
{
    let kept = macroblock_code::kept_by(layout::macroblock_in(bytes));
    let fields = field_fault(bytes, kept);
    let zeros = zeros_fault(bytes, byte_at(bytes, KIND));
    earlier(fields, zeros)
}

// The first bad byte of a record, byte 0 where it has not 24.
#[tactic(auto, unfolding(records::specs::Alone::record_fault))]
pub(crate) fn record_fault(bytes: &[u8]) -> Result<(), Fault>
    ensures { result ≡ record_fault bytes.now }
{
    if bytes.len() != 24 {
        return Err(Fault {
            number: 15,
            place: 0,
        });
    }
    first_bad(bytes)
}
