// The words that begin a command.
ghost use Rattle.std.specs.Prelude.{◌≡◌};
ghost use Rattle.headers.specs.Headers.{header_of};

use headers::{Header, Opcode};

// What a word begins. The whole word must match.
#[tactic(auto, unfolding(headers::specs::Headers::header_of, headers::specs::Headers::look_up, headers::specs::Headers::table))]
pub fn read_header(word: u32) -> Header
    ensures { result ≡ header_of word }
{
    match word {
        0 => Header::Known(Opcode::Noop, 1),
        0x0500_0000 => Header::Known(Opcode::End, 1),
        0x7001_0004 => Header::Known(Opcode::Surface, 6),
        0x7300_000b => Header::Known(Opcode::Picture, 13),
        0x7343_0006 => Header::Known(Opcode::SliceGroup, 8),
        0x7349_0007 => Header::Known(Opcode::Macroblock, 9),
        0x7000_0003 => Header::Carried(5),
        0x7002_003b => Header::Carried(61),
        0x7003_0018 => Header::Carried(26),
        0x7004_0008 => Header::Carried(10),
        0x7007_0010 => Header::Carried(18),
        0x7008_0020 => Header::Carried(34),
        _ => Header::Unknown,
    }
}
