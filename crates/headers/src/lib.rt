// What a word begins, and the words of a command.
#![tactic(auto)]

// The word that begins a MACROBLOCK command.
pub const MACROBLOCK_HEADER: u32 = 0x7349_0007;

// The commands that have rules of their own.
#[derive(Clone, Copy)]
pub enum Opcode {
    Noop,
    End,
    Surface,
    Picture,
    SliceGroup,
    Macroblock,
}

// What a word begins: a known command or a carried one (document 01's term for those that only have a length), each with its
// count of words, or no command. An enum of its own: an `Option` of an enum of two would say the same in two types.
#[derive(Clone, Copy)]
pub enum Header {
    Known(Opcode, usize),
    Carried(usize),
    Unknown,
}
