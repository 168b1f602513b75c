// The rules that a MACROBLOCK command keeps by itself.
ghost use Rattle.std.specs.Prelude.{◌≡◌};
ghost use Rattle.answers.specs.Answers.{judged};
ghost use Rattle.macroblock.specs.Rules.{kept_by, type_permitted, field_in, fixed1, fixed3, fixed4, field_rules, vector_rules, command_rules};

use crate::cases::{is_field, is_intra};
use crate::reading::{kind_in, macroblock_of, motion_in};
use crate::writing::vector_words;
use answers::Fault;
use answers_code::{earlier, rule};
use fields_code::{bits, flag_of, has_bits, is_set};
use headers_code::word_at;
use macroblock::{Allowed, Kept, Macroblock};

// Which rules of the macroblock itself hold.
#[tactic(auto, unfolding(macroblock::specs::Rules::kept_by))]
pub fn kept_by(macroblock: Macroblock) -> Kept
    ensures { result ≡ kept_by macroblock }
{
    let intra = is_intra(macroblock.case);
    let fields = is_field(macroblock.case);
    let skip = macroblock.skip;
    let pattern = macroblock.pattern;
    let quantiser = macroblock.quantiser;
    let slice_end = macroblock.flags.first_in_slice | macroblock.flags.last_in_slice;
    Kept {
        intra_not_skipped: !(skip & intra),
        intra_pattern: !intra | (pattern == 63),
        quantiser: (1 <= quantiser) & (quantiser <= 31),
        skip_inside_slice: !(skip & slice_end),
        skip_pattern: !skip | (pattern == 0),
        field_not_skipped: !(skip & fields),
    }
}

fn type_permitted(allowed: Allowed, word: u32) -> bool
    ensures { result ≡ type_permitted allowed word }
{
    let kind = bits(word, 12, 8);
    if is_set(word, 13) {
        kind == 0x1a
    } else if allowed.field {
        (1 <= kind) & (kind <= 4)
    } else {
        (1 <= kind) & (kind <= 3)
    }
}

// Whether word 1 says field prediction, where that is allowed.
fn field_in(allowed: Allowed, word: u32) -> bool
    ensures { result ≡ field_in allowed word }
{
    let kind = kind_in(word);
    allowed.field & (kind == 4)
}

// Whether the bits of words 1, 3 and 4 that have one value have it.
fn fixed1(allowed: Allowed, word: u32) -> bool
    ensures { result ≡ fixed1 allowed word }
{
    let fields = flag_of(field_in(allowed, word));
    let frame_dct = has_bits(word, 15, 15, 0);
    let skip = is_set(word, 2);
    let high = has_bits(word, 14, 14, fields);
    let middle = has_bits(word, 7, 3, 0);
    let low = has_bits(word, 1, 0, fields);
    (frame_dct | (allowed.dct_type & !skip)) & (high & (middle & low))
}

fn fixed3(word: u32) -> bool
    ensures { result ≡ fixed3 word }
{
    has_bits(word, 15, 12, 0) & has_bits(word, 5, 0, 0)
}

fn fixed4(fields: bool, word: u32) -> bool
    ensures { result ≡ fixed4 fields word }
{
    let high = has_bits(word, 29, 28, 0);
    let middle = has_bits(word, 23, 19, 0);
    let between = has_bits(word, 17, 17, 0);
    let low = has_bits(word, 15, 5, 0);
    let bottom = has_bits(word, 18, 18, 0);
    let top = has_bits(word, 16, 16, 0);
    high & (middle & (between & (low & (fields | (bottom & top)))))
}

// Words 1, 3 and 4.
fn field_fault(allowed: Allowed, words: &[u32], kept: Kept) -> Result<(), Fault>
    ensures { result ≡ judged (field_rules allowed kept words.now) }
{
    let one = word_at(words, 1);
    let three = word_at(words, 3);
    let four = word_at(words, 4);
    let typed = type_permitted(allowed, one) & kept.intra_not_skipped;
    let skip = kept.skip_inside_slice & (kept.skip_pattern & kept.field_not_skipped);
    let fields = field_in(allowed, one);
    rule(4, 1, fixed1(allowed, one))
        .and(rule(5, 1, typed))
        .and(rule(11, 1, skip))
        .and(rule(4, 3, fixed3(three)))
        .and(rule(5, 3, kept.intra_pattern))
        .and(rule(4, 4, fixed4(fields, four)))
        .and(rule(5, 4, kept.quantiser))
}

// Words 5 to 8: whether they are the vectors and copies that their kind asks for.
#[tactic(auto, unfolding(macroblock::specs::Rules::vector_rules), using(answers::proofs::Judging::in_turn))]
fn vector_fault(words: &[u32]) -> Result<(), Fault>
    ensures { result ≡ judged (vector_rules words.now) }
{
    let [five, six, seven, eight] = vector_words(motion_in(words));
    rule(8, 5, word_at(words, 5) == five)
        .and(rule(8, 6, word_at(words, 6) == six))
        .and(rule(8, 7, word_at(words, 7) == seven))
        .and(rule(8, 8, word_at(words, 8) == eight))
}

// The first rule that a MACROBLOCK command breaks by itself, under what is allowed, with its word as the place.
#[tactic(auto, unfolding(macroblock::specs::Rules::command_rules), using(answers::proofs::Judging::judged_append))]
pub fn fault_of(allowed: Allowed, words: &[u32]) -> Result<(), Fault>
    ensures { result ≡ judged (command_rules allowed words.now) }
{
    let kept = kept_by(macroblock_of(words));
    let fields = field_fault(allowed, words, kept);
    earlier(fields, vector_fault(words))
}
