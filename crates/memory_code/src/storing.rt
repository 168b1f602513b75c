// The words of memory that stand for a state.
ghost use Rattle.std.specs.Prelude.{◌≡◌, ◌++◌, ◌^◌, ◌<◌, length, drop};
ghost use Rattle.memory.specs.Places.{memory_words, buffer_words};
ghost use Rattle.memory.specs.Memory.{stage_fields, frame_fields, picture_fields, position_fields, previous_fields, extents_fields, progress_fields, own_fields, halt_number, lengths_fields, placed, state_in, state_words};

use crate::places;
use answers::Fault;
use batch::Lengths;
use parts::State;
use picture::{Frame, Picture};
use prediction::Position;
use progress::{Extents, Previous, Progress, Stage};

fn put_buffer(buffer: [u32; places::BUFFER_WORDS], memory: &mut [u64; memory::WORDS])
    requires { length memory.old ≡ memory_words }
    ensures { memory.new ≡ buffer ++ drop buffer_words memory.old }
{
    for (i, word) in buffer.iter().enumerate() {
        memory[i] = *word as u64;
    }
}

fn put_stage(stage: Stage, memory: &mut [u64; memory::WORDS])
    ensures { memory.new ≡ placed (stage_fields stage) memory.old }
{
    memory[places::SURFACED] = stage.surfaced as u64;
    memory[places::PICTURED] = stage.pictured as u64;
    memory[places::GROUPED] = stage.grouped as u64;
    memory[places::IN_GROUP] = stage.in_group as u64;
    memory[places::GROUP_START] = stage.group_start as u64;
    memory[places::IN_SLICE] = stage.in_slice as u64;
    memory[places::ENDED] = stage.ended as u64;
}

fn put_frame(frame: Frame, memory: &mut [u64; memory::WORDS])
    ensures { memory.new ≡ placed (frame_fields frame) memory.old }
{
    memory[places::WIDTH] = frame.width as u64;
    memory[places::HEIGHT] = frame.height as u64;
    memory[places::PITCH] = frame.surface.pitch as u64;
    memory[places::CHROMA_ROW] = frame.surface.chroma_row as u64;
}

fn put_picture(picture: Picture, memory: &mut [u64; memory::WORDS])
    ensures { memory.new ≡ placed (picture_fields picture) memory.old }
{
    memory[places::CODING] = picture.coding as u64;
    memory[places::FORWARD_X] = picture.forward.x as u64;
    memory[places::FORWARD_Y] = picture.forward.y as u64;
    memory[places::BACKWARD_X] = picture.backward.x as u64;
    memory[places::BACKWARD_Y] = picture.backward.y as u64;
    memory[places::COLUMNS] = picture.grid.columns as u64;
    memory[places::ROWS] = picture.grid.rows as u64;
    memory[places::FRAME_PRED_FRAME_DCT] = picture.frame_pred_frame_dct as u64;
}

fn put_position(position: Position, memory: &mut [u64; memory::WORDS])
    ensures { memory.new ≡ placed (position_fields position) memory.old }
{
    memory[places::COLUMN] = position.column as u64;
    memory[places::ROW] = position.row as u64;
}

fn put_previous(previous: Previous, memory: &mut [u64; memory::WORDS])
    ensures { memory.new ≡ placed (previous_fields previous) memory.old }
{
    memory[places::KIND] = previous.kind as u64;
    memory[places::FIVE] = previous.five as u64;
    memory[places::SIX] = previous.six as u64;
    memory[places::SEVEN] = previous.seven as u64;
    memory[places::EIGHT] = previous.eight as u64;
}

fn put_extents(extents: Extents, memory: &mut [u64; memory::WORDS])
    ensures { memory.new ≡ placed (extents_fields extents) memory.old }
{
    memory[places::SOURCE_FIRST] = extents.source.first;
    memory[places::SOURCE_END] = extents.source.end;
    memory[places::RECONSTRUCTED_FIRST] = extents.reconstructed.first;
    memory[places::RECONSTRUCTED_END] = extents.reconstructed.end;
    memory[places::FORWARD_FIRST] = extents.forward.first;
    memory[places::FORWARD_END] = extents.forward.end;
    memory[places::BACKWARD_FIRST] = extents.backward.first;
    memory[places::BACKWARD_END] = extents.backward.end;
}

fn put_progress(progress: Progress, memory: &mut [u64; memory::WORDS])
    ensures { memory.new ≡ placed (progress_fields progress) memory.old }
{
    put_stage(progress.stage, memory);
    put_frame(progress.frame, memory);
    put_picture(progress.picture, memory);
    put_position(progress.position, memory);
    put_previous(progress.previous, memory);
    put_extents(progress.extents, memory);
}

fn put_own(state: State, memory: &mut [u64; memory::WORDS])
    ensures { (memory.new ≡ placed (own_fields state) memory.old) × (halt_number state.fault < 2 ^ 8) }
{
    memory[places::AT] = state.at as u64;
    memory[places::HELD] = state.held as u64;
    memory[places::STOPPED] = state.fault.is_some() as u64;
    let fault = state.fault.unwrap_or(Fault {
        number: 0,
        place: 0,
    });
    memory[places::NUMBER] = fault.number as u64;
    memory[places::PLACE] = fault.place;
}

fn put_lengths(lengths: Lengths, memory: &mut [u64; memory::WORDS])
    ensures { memory.new ≡ placed (lengths_fields lengths) memory.old }
{
    memory[places::SOURCE_LENGTH] = lengths.source;
    memory[places::RECONSTRUCTED_LENGTH] = lengths.reconstructed;
    memory[places::FORWARD_LENGTH] = lengths.forward;
    memory[places::BACKWARD_LENGTH] = lengths.backward;
}

// The words of a state. They stand for it.
pub fn state_words(state: State) -> [u64; memory::WORDS]
    ensures { (result ≡ state_words state) × (state_in result ≡ state) }
{
    let mut memory = [0u64; memory::WORDS];
    let buffer = state.buffer;
    put_buffer(buffer, &mut memory);
    put_progress(state.progress, &mut memory);
    put_own(state, &mut memory);
    put_lengths(state.lengths, &mut memory);
    memory
}
