// What is touched of one picture buffer.
ghost use Rattle.std.specs.Prelude.{◌≡◌, min};
ghost use Rattle.prediction.specs.Extents.{empty_extent, joined};

use prediction::Extent;

// No byte. No `Option` stands for it: lent memory may hold any two numbers (`stored_extents`), and an untouched buffer is reported as zeros.
#[tactic(auto, unfolding(prediction::specs::Extents::empty_extent))]
pub fn empty() -> Extent
    ensures { result ≡ empty_extent }
{
    Extent { first: 0, end: 0 }
}

// The end of what either touches, from both ends.
#[tactic(auto, unfolding(prediction::specs::Extents::joined))]
pub fn join_ends(one: u64, other: u64) -> u64
    ensures { result ≡ (joined (record { first = 0; end = one }) (record { first = 0; end = other })).end }
{
    one.max(other)
}

// What either touches.
#[tactic(auto, unfolding(prediction::specs::Extents::joined))]
pub fn join(one: Extent, other: Extent) -> Extent
    ensures { result ≡ joined one other }
{
    if other.end == 0 {
        return one;
    }
    if one.end == 0 {
        return other;
    }
    let first = one.first.min(other.first);
    let end = join_ends(one.end, other.end);
    Extent { first, end }
}
