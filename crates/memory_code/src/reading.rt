// The state that words of memory stand for. Any content stands for one: numbers are cut to their width, and a flag is any word but 0.
ghost use Rattle.std.specs.Prelude.{◌≡◌};
ghost use Rattle.memory.specs.Memory.{stored_stage, stored_frame, stored_picture, stored_position, stored_previous, stored_extents, stored_progress, stored_lengths, stored_buffer, stored_halt, state_in};

use crate::places;
use answers::Fault;
use batch::Lengths;
use parts::State;
use picture::{Codes, Frame, Picture};
use prediction::{Extent, Grid, Position, Surface};
use progress::{Extents, Previous, Progress, Stage};

fn stage_in(memory: &[u64; memory::WORDS]) -> Stage
    ensures { result ≡ stored_stage memory.now }
{
    Stage {
        surfaced: memory[places::SURFACED] != 0,
        pictured: memory[places::PICTURED] != 0,
        grouped: memory[places::GROUPED] != 0,
        in_group: memory[places::IN_GROUP] != 0,
        group_start: memory[places::GROUP_START] != 0,
        in_slice: memory[places::IN_SLICE] != 0,
        ended: memory[places::ENDED] != 0,
    }
}

fn frame_in(memory: &[u64; memory::WORDS]) -> Frame
    ensures { result ≡ stored_frame memory.now }
{
    Frame {
        width: (memory[places::WIDTH] % 65536) as u16,
        height: (memory[places::HEIGHT] % 65536) as u16,
        surface: Surface {
            pitch: (memory[places::PITCH] % 4294967296) as u32,
            chroma_row: (memory[places::CHROMA_ROW] % 65536) as u16,
        },
    }
}

fn picture_in(memory: &[u64; memory::WORDS]) -> Picture
    ensures { result ≡ stored_picture memory.now }
{
    Picture {
        coding: (memory[places::CODING] % 256) as u8,
        forward: Codes {
            x: (memory[places::FORWARD_X] % 256) as u8,
            y: (memory[places::FORWARD_Y] % 256) as u8,
        },
        backward: Codes {
            x: (memory[places::BACKWARD_X] % 256) as u8,
            y: (memory[places::BACKWARD_Y] % 256) as u8,
        },
        grid: Grid {
            columns: (memory[places::COLUMNS] % 65536) as u16,
            rows: (memory[places::ROWS] % 65536) as u16,
        },
        frame_pred_frame_dct: memory[places::FRAME_PRED_FRAME_DCT] != 0,
    }
}

fn position_in(memory: &[u64; memory::WORDS]) -> Position
    ensures { result ≡ stored_position memory.now }
{
    Position {
        column: (memory[places::COLUMN] % 65536) as u16,
        row: (memory[places::ROW] % 65536) as u16,
    }
}

fn previous_in(memory: &[u64; memory::WORDS]) -> Previous
    ensures { result ≡ stored_previous memory.now }
{
    Previous {
        kind: (memory[places::KIND] % 256) as u8,
        five: (memory[places::FIVE] % 4294967296) as u32,
        six: (memory[places::SIX] % 4294967296) as u32,
        seven: (memory[places::SEVEN] % 4294967296) as u32,
        eight: (memory[places::EIGHT] % 4294967296) as u32,
    }
}

fn extents_in(memory: &[u64; memory::WORDS]) -> Extents
    ensures { result ≡ stored_extents memory.now }
{
    Extents {
        source: Extent {
            first: memory[places::SOURCE_FIRST],
            end: memory[places::SOURCE_END],
        },
        reconstructed: Extent {
            first: memory[places::RECONSTRUCTED_FIRST],
            end: memory[places::RECONSTRUCTED_END],
        },
        forward: Extent {
            first: memory[places::FORWARD_FIRST],
            end: memory[places::FORWARD_END],
        },
        backward: Extent {
            first: memory[places::BACKWARD_FIRST],
            end: memory[places::BACKWARD_END],
        },
    }
}

fn progress_in(memory: &[u64; memory::WORDS]) -> Progress
    ensures { result ≡ stored_progress memory.now }
{
    Progress {
        stage: stage_in(memory),
        frame: frame_in(memory),
        picture: picture_in(memory),
        position: position_in(memory),
        previous: previous_in(memory),
        extents: extents_in(memory),
    }
}

fn lengths_in(memory: &[u64; memory::WORDS]) -> Lengths
    ensures { result ≡ stored_lengths memory.now }
{
    Lengths {
        source: memory[places::SOURCE_LENGTH],
        reconstructed: memory[places::RECONSTRUCTED_LENGTH],
        forward: memory[places::FORWARD_LENGTH],
        backward: memory[places::BACKWARD_LENGTH],
    }
}

fn buffer_in(memory: &[u64; memory::WORDS]) -> [u32; places::BUFFER_WORDS]
    ensures { result ≡ stored_buffer memory.now }
{
    let mut buffer = [0u32; places::BUFFER_WORDS];
    for (i, word) in buffer.iter_mut().enumerate() {
        *word = (memory[i] % 4294967296) as u32;
    }
    buffer
}

fn fault_in(memory: &[u64; memory::WORDS]) -> Option<Fault>
    ensures { result ≡ stored_halt memory.now }
{
    if memory[places::STOPPED] == 0 {
        return None;
    }
    Some(Fault {
        number: (memory[places::NUMBER] % 256) as u8,
        place: memory[places::PLACE],
    })
}

// The whole state.
pub fn state_in(memory: &[u64; memory::WORDS]) -> State
    ensures { result ≡ state_in memory.now }
{
    let progress = progress_in(memory);
    let fault = fault_in(memory);
    let lengths = lengths_in(memory);
    let buffer = buffer_in(memory);
    State {
        progress,
        at: (memory[places::AT] % 4294967296) as u32,
        held: memory[places::HELD] as usize,
        fault,
        lengths,
        buffer,
    }
}
