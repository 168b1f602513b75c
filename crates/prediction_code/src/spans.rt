// A block's samples in one direction. A component b stands for b - 32768 half samples, so that no number here is negative.
ghost use Rattle.std.specs.Prelude.{◌≡◌, ◌+◌, ◌-◌, ◌*◌, ◌/◌, ◌<◌, ◌≤◌, MatchOption};
ghost use Rattle.std.proofs.Math.IntN.{sub_ℕ};
ghost use Rattle.prediction.specs.Spans.{inside};

// A component plus 32768.
#[inline(always)]
pub(crate) fn biased(component: i16) -> u16
    ensures { sub_ℕ result 32768 ≡ component }
{
    (component as i32 + 32768) as u16
}

// Whether the block's samples lie in the n blocks of size samples that the picture has. The first one is counted from 16384 before it.
pub(crate) fn inside(size: u8, place: u16, n: u16, b: u16) -> bool
    ensures { result ≡ inside size place n (sub_ℕ b 32768) }
{
    let s = size as u32;
    let b = b as u32;
    let first = s * (place as u32) + b / 2;
    if first < 16384 {
        return false;
    }
    first + (s + b % 2) <= s * (n as u32) + 16384
}

// The samples of a block that does not start before the picture, columns or rows alike: the block is the place-th of its row or
// column of blocks, has `half` chroma samples and twice as many of luma, and b moves it to `from` half samples from the picture's edge.
#[derive(Clone, Copy)]
pub(crate) struct Span {
    pub half: u8,
    pub place: u16,
    pub b: u16,
    pub from: u32,
    ghost some: { 1 ≤ half },
    ghost small: { half ≤ 8 },
    ghost component: { b < 65536 },
    ghost starts: { from + 32768 ≡ 2 * (2 * half * place) + b },
    ghost near: { from ≤ 2129887 },
}

impl Span {
    // None where the block starts before the picture.
    #[inline(always)]
    pub(crate) fn new(half: u8, place: u16, b: u16) -> Option<Span>
        requires { (1 ≤ half) × (half ≤ 8) }
        ensures { MatchOption result (2 * (2 * half * place) + b < 32768) (λ s. (s.half ≡ half) × (s.place ≡ place) × (s.b ≡ b)) }
    {
        let before = 2 * half as u32 * place as u32;
        let from = (2 * before + b as u32).checked_sub(32768)?;
        Some(Span {
            half,
            place,
            b,
            from,
        })
    }

    // The first and the last luma sample.
    #[inline(always)]
    pub(crate) fn first(&self) -> u32
        ensures { result ≡ self.now.from / 2 }
    {
        self.from / 2
    }

    #[inline(always)]
    pub(crate) fn last(&self) -> u32
        ensures { result ≡ (self.now.from + 1) / 2 + (2 * self.now.half - 1) }
    {
        (self.from + 1) / 2 + (2 * self.half - 1) as u32
    }

    // Four for each chroma sample from the picture's edge to the start of chroma: the component is halved towards zero.
    #[inline(always)]
    fn chroma_from(&self) -> u32
        ensures { result ≡ self.now.from + (1 - self.now.b / 32768) }
    {
        self.from + (self.b < 32768) as u32
    }

    // The first and the last chroma sample.
    #[inline(always)]
    pub(crate) fn chroma_first(&self) -> u32
        ensures { result ≡ (self.now.from + (1 - self.now.b / 32768)) / 4 }
    {
        self.chroma_from() / 4
    }

    #[inline(always)]
    pub(crate) fn chroma_last(&self) -> u32
        ensures { result ≡ (self.now.from + (1 - self.now.b / 32768) + 2) / 4 + (self.now.half - 1) }
    {
        (self.chroma_from() + 2) / 4 + (self.half - 1) as u32
    }
}
