// A macroblock's record, written and read.
ghost use Rattle.std.specs.Prelude.{◌≡◌, cond, eqb};
ghost use Rattle.fields.specs.Word.{packed};
ghost use Rattle.records.specs.Records.{flag_fields, flags_of, recorded_kind, recorded_motion, record_of, macroblock_in};

use crate::numbers::*;
use fields_code::{bytes16, flag_of, is_set, with_flag};
use macroblock::{Flags, Macroblock, Motion};

// The flags as the byte that holds them, and back.
fn flags_byte(flags: Flags) -> u8
    ensures { result ≡ packed (flag_fields flags) }
{
    let to5 = with_flag(0, 5, flags.no_skip_conversion);
    let to4 = with_flag(to5, 4, flags.clamp);
    let to3 = with_flag(to4, 3, flags.last_in_group);
    let to2 = with_flag(to3, 2, flags.first_in_group);
    let to1 = with_flag(to2, 1, flags.last_in_slice);
    with_flag(to1, 0, flags.first_in_slice) as u8
}

fn flags_of(byte: u8) -> Flags
    ensures { result ≡ flags_of byte }
{
    let word = byte as u32;
    Flags {
        first_in_slice: is_set(word, 0),
        last_in_slice: is_set(word, 1),
        first_in_group: is_set(word, 2),
        last_in_group: is_set(word, 3),
        clamp: is_set(word, 4),
        no_skip_conversion: is_set(word, 5),
    }
}

// The kind that a record has for one of a macroblock: forward for field forward.
fn recordable_kind(kind: u8) -> u8
    ensures { result ≡ cond (eqb kind 4) 1 kind }
{
    if kind == 4 { 1 } else { kind }
}

// The record of a macroblock, as far as it has room.
pub(crate) fn record_of(macroblock: Macroblock) -> [u8; 24]
    ensures { result ≡ record_of macroblock }
{
    let motion = macroblock_code::motion_of(macroblock.case);
    // Both are made before the array: made where they are put, they took eight to eleven instructions more a record.
    let kind = recordable_kind(motion.kind);
    let flags = flags_byte(macroblock.flags);
    let mut record = [0; 24];
    record[KIND] = kind;
    record[SKIP] = flag_of(macroblock.skip) as u8;
    record[PATTERN] = macroblock.pattern;
    record[MAX_SIZE] = macroblock.max_size;
    record[TARGET_SIZE] = macroblock.target_size;
    record[QUANTISER] = macroblock.quantiser;
    record[FLAGS] = flags;
    put_halves(&mut record, BACKWARD, motion.backward);
    put_halves(&mut record, FORWARD, motion.forward);
    put(&mut record, UPPER, &bytes16(macroblock.upper));
    put(&mut record, ROW, &bytes16(macroblock.row));
    put(&mut record, COLUMN, &bytes16(macroblock.column));
    record
}

// The kind that a number in a record says: intra for one that is none.
fn recorded_kind(number: u8) -> u8
    ensures { result ≡ recorded_kind number }
{
    if number <= 3 { number } else { 0 }
}

// The kind and the vectors of a record.
fn motion_in(bytes: &[u8]) -> Motion
    ensures { result ≡ recorded_motion bytes.now }
{
    Motion {
        kind: recorded_kind(byte_at(bytes, KIND)),
        forward: number32_at(bytes, FORWARD),
        backward: number32_at(bytes, BACKWARD),
        bottom: 0,
        top_from_bottom: false,
        bottom_from_bottom: false,
    }
}

// The macroblock of a record, legal or not.
#[tactic(auto, unfolding(records::specs::Records::macroblock_in))]
pub(crate) fn macroblock_in(bytes: &[u8]) -> Macroblock
    ensures { result ≡ macroblock_in bytes.now }
{
    Macroblock {
        column: number16_at(bytes, COLUMN),
        row: number16_at(bytes, ROW),
        upper: number16_at(bytes, UPPER),
        case: macroblock_code::case_of(motion_in(bytes)),
        skip: byte_at(bytes, SKIP) == 1,
        dct_type: false,
        pattern: byte_at(bytes, PATTERN),
        max_size: byte_at(bytes, MAX_SIZE),
        target_size: byte_at(bytes, TARGET_SIZE),
        quantiser: byte_at(bytes, QUANTISER),
        flags: flags_of(byte_at(bytes, FLAGS)),
    }
}
