// The range of a vector's components under the picture's f codes.
ghost use Rattle.std.specs.Prelude.{◌≡◌, ◌-◌, ◌<◌};
ghost use Rattle.std.proofs.Math.IntN.{sub_ℕ};
ghost use Rattle.prediction.specs.Ranges.{in_range, vector_in_range};

use crate::spans;
use crate::structures::luma_rows;
use prediction::{Structure, Vector};

// Whether the component b - 32768 lies in the range of a code.
fn in_range(size: u8, code: u8, b: u16) -> bool
    requires { 0 < size }
    ensures { result ≡ in_range size code (sub_ℕ b 32768) }
{
    let power = code.saturating_sub(1);
    if 16 <= power {
        return true;
    }
    let limit = (size as u32) << power;
    let b = b as u32;
    if b + limit < 32768 {
        return false;
    }
    b < 32768 + limit
}

// Whether both components of a vector lie in the ranges of their codes.
#[tactic(auto, unfolding(prediction::specs::Ranges::vector_in_range), using(prediction::proofs::TwosComplement::read_back))]
pub fn vector_in_range(structure: Structure, vector: Vector, x_code: u8, y_code: u8) -> bool
    ensures { result ≡ vector_in_range structure vector x_code y_code }
{
    if !in_range(16, x_code, spans::biased(vector.x)) {
        return false;
    }
    in_range(luma_rows(structure), y_code, spans::biased(vector.y))
}
