// The words of a SURFACE command.
ghost use Rattle.std.specs.Prelude.{◌≡◌};
ghost use Rattle.answers.specs.Answers.{judged};
ghost use Rattle.picture.specs.Surfaces.{surface_of, surface_bits3, surface_rules};

use answers::Fault;
use answers_code::rule;
use fields_code::{bits, has_bits};
use headers_code::word_at;
use picture::Frame;
use prediction::Surface;

// What a command's words say, legal or not.
#[tactic(auto, unfolding(picture::specs::Surfaces::surface_of))]
pub fn surface_of(words: &[u32]) -> Frame
    ensures { result ≡ surface_of words.now }
{
    let two = word_at(words, 2);
    let three = word_at(words, 3);
    let four = word_at(words, 4);
    let surface = Surface {
        pitch: bits(three, 19, 3) + 1,
        chroma_row: bits(four, 14, 0) as u16,
    };
    Frame {
        width: (bits(two, 17, 4) + 1) as u16,
        height: (bits(two, 31, 18) + 1) as u16,
        surface,
    }
}

// Whether the bits of word 3 that have one value have it.
fn surface_bits3(three: u32) -> bool
    ensures { result ≡ surface_bits3 three }
{
    let upper = has_bits(three, 31, 28, 4) & has_bits(three, 27, 27, 1);
    let lower = has_bits(three, 2, 2, 0) & has_bits(three, 1, 0, 3);
    upper & (has_bits(three, 26, 20, 0) & lower)
}

// The first rule that a SURFACE command breaks, with its word as the place.
#[tactic(auto, unfolding(picture::specs::Surfaces::surface_rules), using(answers::proofs::Judging::in_turn))]
pub fn surface_fault(words: &[u32]) -> Result<(), Fault>
    ensures { result ≡ judged (surface_rules words.now) }
{
    let frame = surface_of(words);
    let bits2 = has_bits(word_at(words, 2), 3, 0, 0);
    let bits3 = surface_bits3(word_at(words, 3));
    let bits4 = has_bits(word_at(words, 4), 31, 15, 0);
    rule(4, 1, word_at(words, 1) == 0)
        .and(rule(4, 2, bits2))
        .and(rule(4, 3, bits3))
        .and(rule(5, 3, frame.surface.pitch % 128 == 0))
        .and(rule(4, 4, bits4))
}
