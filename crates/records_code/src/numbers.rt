// Bytes and numbers of a record.
ghost use Rattle.std.specs.Prelude.{◌≡◌, ◌≤◌, ◌+◌, length, get_or};
ghost use Rattle.std.proofs.lemmas.List.Edits.{sets};
ghost use Rattle.fields.specs.Bytes.{bytes_of, number_in, elements};

use fields_code::{bytes16, halves_of};

// The first byte of each part; specs/Layout.antt has them with their counts.
pub(crate) const COLUMN: usize = 0;

pub(crate) const ROW: usize = 2;

pub(crate) const UPPER: usize = 4;

pub(crate) const KIND: usize = 6;

pub(crate) const SKIP: usize = 7;

pub(crate) const PATTERN: usize = 8;

pub(crate) const MAX_SIZE: usize = 9;

pub(crate) const TARGET_SIZE: usize = 10;

pub(crate) const QUANTISER: usize = 11;

pub(crate) const FLAGS: usize = 12;

pub(crate) const FILLER: usize = 13;

pub(crate) const FORWARD: usize = 16;

pub(crate) const BACKWARD: usize = 20;

// A byte, 0 where there is none; and so the number in one byte.
pub(crate) fn byte_at(bytes: &[u8], i: usize) -> u8
    ensures byte { result ≡ get_or bytes.now i 0 }
    ensures number { result ≡ number_in (elements bytes.now i 1) }
{
    bytes.get(i).copied().unwrap_or(0)
}

// The number in two or four bytes. One function for both would need a loop and a cast, and would be longer than the two.
pub(crate) fn number16_at(bytes: &[u8], i: usize) -> u16
    requires { i ≤ 24 }
    ensures { result ≡ number_in (elements bytes.now i 2) }
{
    let b0 = byte_at(bytes, i);
    let b1 = byte_at(bytes, i + 1);
    fields_code::number16(b0, b1)
}

pub(crate) fn number32_at(bytes: &[u8], i: usize) -> u32
    requires { i ≤ 24 }
    ensures { result ≡ number_in (elements bytes.now i 4) }
{
    let b0 = byte_at(bytes, i);
    let b1 = byte_at(bytes, i + 1);
    let b2 = byte_at(bytes, i + 2);
    let b3 = byte_at(bytes, i + 3);
    fields_code::number32(b0, b1, b2, b3)
}

// Puts a part into a record, from byte i on.
pub(crate) fn put(bytes: &mut [u8; 24], i: usize, part: &[u8])
    requires { i + length part.now ≤ 24 }
    ensures { bytes.new ≡ sets bytes.old i part.now }
{
    bytes[i..i + part.len()].copy_from_slice(part);
}

// Puts a vector's word into a record by its halves, which a mask and a shift take apart (document 02, R-2). No `bytes32`: std's bytes of a word
// are quotients and remainders.
pub(crate) fn put_halves(bytes: &mut [u8; 24], i: usize, word: u32)
    requires { i ≤ 20 }
    ensures { bytes.new ≡ sets bytes.old i (bytes_of 4 word) }
{
    let halves = halves_of(word);
    put(bytes, i, &bytes16(halves.low));
    put(bytes, i + 2, &bytes16(halves.high));
}
