// Vectors in their words. Functions and no `From`: the type is of a crate of definitions, which declares no function.
ghost use Rattle.std.specs.Prelude.{◌≡◌};
ghost use Rattle.prediction.specs.Vectors.{vector_of, word_of};

use fields::Halves;
use prediction::Vector;

// The vector of a word.
#[tactic(auto, unfolding(prediction::specs::Vectors::vector_of), using(prediction::proofs::TwosComplement::to_z_signed, prediction::proofs::TwosComplement::read_back))]
pub fn vector_of(word: u32) -> Vector
    ensures { result ≡ vector_of word }
{
    let halves = fields_code::halves_of(word);
    Vector {
        x: halves.low.cast_signed(),
        y: halves.high.cast_signed(),
    }
}

// The word of a vector.
#[tactic(auto, unfolding(prediction::specs::Vectors::word_of), using(prediction::proofs::TwosComplement::of_z_bits, prediction::proofs::TwosComplement::read_back))]
pub fn word_of(vector: Vector) -> u32
    ensures { result ≡ word_of vector }
{
    let low = vector.x.cast_unsigned();
    let high = vector.y.cast_unsigned();
    fields_code::word_of_halves(Halves { low, high })
}
