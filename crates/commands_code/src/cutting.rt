// What words begin with.
ghost use Rattle.std.specs.Prelude.{◌≡◌};
ghost use Rattle.headers.specs.Headers.{header_of, words_in};
ghost use Rattle.commands.specs.Commands.{next_in};

use commands::NextCommand;
use headers::Header;

// The count of words of the command that a header begins, 0 for none: no Option, since `command_words` promises the number.
fn words_in(header: Header) -> usize
    ensures { result ≡ words_in header }
{
    match header {
        Header::Known(_, n) | Header::Carried(n) => n,
        Header::Unknown => 0,
    }
}

// The count of words of the command that a word begins, 0 for none.
pub fn command_words(word: u32) -> usize
    ensures { result ≡ words_in (header_of word) }
{
    words_in(headers_code::read_header(word))
}

// What words begin with.
#[tactic(auto, unfolding(commands::specs::Commands::next_in))]
pub fn next_command(words: &[u32]) -> NextCommand
    ensures { result ≡ next_in words.now }
{
    let header = headers_code::read_header(headers_code::word_at(words, 0));
    let n = words_in(header);
    if n == 0 {
        return NextCommand::Unknown;
    }
    if words.len() < n {
        return NextCommand::Incomplete;
    }
    NextCommand::Whole(header, n)
}
