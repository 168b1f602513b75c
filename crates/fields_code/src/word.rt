// Bits of a 32-bit word.
ghost use Rattle.std.specs.Prelude.{◌≡◌, ◌-◌, ◌^◌, ◌≤◌};
ghost use Rattle.fields.specs.Word.{width, bits, has_bits, with_bits, is_set, flag, halves_of, word_of_halves};

use fields::Halves;

// How many bits hi:lo names.
fn width_of(hi: u8, lo: u8) -> u8
    ensures { result ≡ width hi lo }
{
    hi.saturating_add(1).min(32).saturating_sub(lo)
}

// A mask of the n lowest bits, of which a word has 32.
fn ones(n: u8) -> u32
    requires { n ≤ 32 }
    ensures { result ≡ 2 ^ n - 1 }
{
    if 32 <= n {
        return u32::MAX;
    }
    (1 << n) - 1
}

// Bits hi:lo of a word.
pub fn bits(word: u32, hi: u8, lo: u8) -> u32
    ensures { result ≡ bits word hi lo }
{
    let n = width_of(hi, lo);
    if 32 <= lo {
        return 0;
    }
    (word >> lo) & ones(n)
}

// Whether bits hi:lo have a value.
pub fn has_bits(word: u32, hi: u8, lo: u8, value: u32) -> bool
    ensures { result ≡ has_bits word hi lo value }
{
    bits(word, hi, lo) == value
}

// Whether a bit of a word is 1.
pub fn is_set(word: u32, bit: u8) -> bool
    ensures { result ≡ is_set (bits word bit bit) }
{
    bits(word, bit, bit) == 1
}

// A flag as a bit.
pub fn flag_of(set: bool) -> u32
    ensures { result ≡ flag set }
{
    set as u32
}

// The word with the lowest bits of value in hi:lo, and its other bits as they were.
pub fn with_bits(word: u32, hi: u8, lo: u8, value: u32) -> u32
    ensures { result ≡ with_bits word hi lo value }
{
    let n = width_of(hi, lo);
    if 32 <= lo {
        return word;
    }
    let end = n + lo;
    let below = word & ones(lo);
    let field = value & ones(n);
    if 32 <= end {
        return below | (field << lo);
    }
    below | (field << lo) | ((word >> end) << end)
}

// The word with one bit that says whether something is so.
pub fn with_flag(word: u32, bit: u8, set: bool) -> u32
    ensures { result ≡ with_bits word bit bit (flag set) }
{
    with_bits(word, bit, bit, flag_of(set))
}

// The halves of a word, and back. Functions and no `From`: the type is of a crate of definitions, which declares no function.
pub fn halves_of(word: u32) -> Halves
    ensures { result ≡ halves_of word }
{
    Halves {
        low: (word & 0xffff) as u16,
        high: (word >> 16) as u16,
    }
}

// The word of two halves.
pub fn word_of_halves(halves: Halves) -> u32
    ensures { result ≡ word_of_halves halves }
{
    with_bits(halves.low as u32, 31, 16, halves.high as u32)
}
