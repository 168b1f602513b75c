// The words of a command.
ghost use Rattle.std.specs.Prelude.{◌≡◌};
ghost use Rattle.headers.specs.Words.{word_at};

// A word of a command, 0 where there is none.
pub fn word_at(words: &[u32], i: usize) -> u32
    ensures { result ≡ word_at words.now i }
{
    words.get(i).copied().unwrap_or(0)
}
