// Comparing the answer to a whole batch with the answers to it in parts. Where one is another, that is printed.
ghost use Rattle.std.specs.Prelude.{◌≤◌, length};

use crate::printing::Shown;
use batch::Lengths;
use std::io;

fn in_two(words: &[u32], cut: usize, lengths: Lengths) -> Shown
    requires { cut ≤ length words.now }
{
    let (first, rest) = words.split_at(cut);
    let state = parts_code::hand_over(parts_code::begin(lengths), first);
    parts_code::answer(parts_code::hand_over(state, rest)).into()
}

fn word_by_word(words: &[u32], lengths: Lengths) -> Shown {
    let state = words.chunks(1).fold(
        parts_code::begin(lengths),
        |state, part| parts_code::hand_over(state, part),
    );
    parts_code::answer(state).into()
}

// Word by word, and in two parts at every cut up to the first that differs.
pub fn compare(rt: &impl Print, words: &[u32], lengths: Lengths, whole: Shown) -> io::Result<()> {
    if whole != word_by_word(words, lengths) {
        print!(rt; " differs word by word")?;
    }
    for cut in 0..=words.len() {
        if whole != in_two(words, cut, lengths) {
            return print!(rt; " differs at {cut}");
        }
    }
    Ok(())
}
