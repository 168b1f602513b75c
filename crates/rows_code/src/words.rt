// Tests of the words of a MACROBLOCK command, each for all rules that it can answer at once.
ghost use Rattle.std.specs.Prelude.{true, ◌≡◌};
ghost use Rattle.rows.specs.Words.{type_bits, without_choices, bound_bits, FlagsKept, IntraKept, Repeated, SkipKept, InterKept, FieldKept};

// What `type_bits` leaves of word 1 of a macroblock that is predicted from the forward reference, from the backward one, from both, not at all,
// and from fields. Of the first three, bit 2 may be set too.
pub(crate) const FORWARD: u32 = 0x100;

pub(crate) const BACKWARD: u32 = 0x200;

pub(crate) const BOTH: u32 = 0x300;

pub(crate) const INTRA: u32 = 0x3a00;

pub(crate) const FIELDS: u32 = 0x4401;

// Word 1 without its upper half and, where bit 15 is free, without that.
pub(crate) fn type_bits(free: bool, one: u32) -> u32
    ensures { result ≡ type_bits free one }
{
    if free {
        return fields_code::with_bits(one, 31, 15, 0);
    }
    fields_code::with_bits(one, 31, 16, 0)
}

// Word 4 of a field prediction without its choices.
pub(crate) fn without_choices(four: u32) -> u32
    ensures { result ≡ without_choices four }
{
    let below_18 = fields_code::with_bits(four, 18, 18, 0);
    fields_code::with_bits(below_18, 16, 16, 0)
}

// Word 4 without the bits that a macroblock is free to set: 31, 27:25 and 4:0.
#[tactic(auto, using(fields::proofs::Packing::same_put), unfolding(rows::specs::Words::bound_bits))]
fn bound_bits(four: u32) -> u32
    ensures { result ≡ bound_bits four }
{
    let below_31 = fields_code::with_bits(four, 31, 31, 0);
    let flags = fields_code::with_bits(below_31, 27, 25, 0);
    fields_code::with_bits(flags, 4, 0, 0)
}

// Whether word 4 is as it has to be, in the last column or not, where its bound bits are due.
pub(crate) fn flags_keep(four: u32, due: u32, last: bool) -> bool
    ensures { result ≡ true → FlagsKept four due last }
{
    bound_bits(four) == due
        && fields_code::bits(four, 4, 0) >= 1
        && (fields_code::bits(four, 31, 31) == 1 || (!last && fields_code::bits(four, 26, 26) == 0))
}

// Whether words 3 to 8 of an intra macroblock are as they have to be, word 4 but for the picture's type.
pub(crate) fn intra_keeps(coding: u8, words: &[u32]) -> bool
    ensures { result ≡ true → IntraKept coding words.now }
{
    let three = headers_code::word_at(words, 3);
    let four = headers_code::word_at(words, 4);
    fields_code::with_bits(three, 31, 16, 0) == 0xfc0
        && placement_code::zero_vectors(words)
        && (coding != 1 || fields_code::bits(four, 25, 25) == 0)
}

// Whether a macroblock has the type and the vectors of the one before, if there is one: words and no `Previous`, since a type is compared by its
// bits alone.
fn repeats(before: &[u32], words: &[u32]) -> bool
    ensures { result ≡ true → Repeated before.now words.now }
{
    let one = headers_code::word_at(words, 1);
    let one_before = headers_code::word_at(before, 1);
    before.len() != 0
        && fields_code::bits(one_before, 13, 8) == fields_code::bits(one, 13, 8)
        && headers_code::word_at(before, 5) == headers_code::word_at(words, 5)
        && headers_code::word_at(before, 6) == headers_code::word_at(words, 6)
        && headers_code::word_at(before, 7) == headers_code::word_at(words, 7)
        && headers_code::word_at(before, 8) == headers_code::word_at(words, 8)
}

// Whether a macroblock of a P or B picture may be skipped.
fn skip_keeps(coding: u8, before: &[u32], words: &[u32]) -> bool
    ensures { result ≡ true → SkipKept coding before.now words.now }
{
    let one = headers_code::word_at(words, 1);
    let three = headers_code::word_at(words, 3);
    let four = headers_code::word_at(words, 4);
    if fields_code::with_bits(three, 31, 16, 0) != 0
        || fields_code::bits(four, 31, 30) != 0
        || fields_code::bits(one, 15, 15) != 0
    {
        return false;
    }
    if coding == 2 {
        return placement_code::zero_vectors(words);
    }
    repeats(before, words)
}

// Whether words 1, 3 and 5 to 8 of an inter macroblock are as they have to be, apart from its type and its vectors.
pub(crate) fn inter_keeps(coding: u8, before: &[u32], words: &[u32]) -> bool
    ensures { result ≡ true → InterKept coding before.now words.now }
{
    let one = headers_code::word_at(words, 1);
    let three = headers_code::word_at(words, 3);
    headers_code::word_at(words, 5) == headers_code::word_at(words, 7)
        && headers_code::word_at(words, 6) == headers_code::word_at(words, 8)
        && fields_code::bits(three, 15, 12) == 0
        && fields_code::bits(three, 5, 0) == 0
        && (fields_code::bits(one, 2, 2) == 0 || skip_keeps(coding, before, words))
}

// Whether words 3, 6 and 8 of a field prediction are as they have to be.
pub(crate) fn field_keeps(words: &[u32]) -> bool
    ensures { result ≡ true → FieldKept words.now }
{
    let three = headers_code::word_at(words, 3);
    let five = headers_code::word_at(words, 5);
    let eight = headers_code::word_at(words, 8);
    five == headers_code::word_at(words, 6)
        && five == eight
        && fields_code::bits(three, 15, 12) == 0
        && fields_code::bits(three, 5, 0) == 0
}
