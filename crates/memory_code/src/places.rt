// The words of lent memory: where each field of the state stands, under the names of the definitions (`specs/Places.antt` of `memory`).
// A field to come takes the first word of the room behind the last.

// The words of the buffer come first.
pub(crate) const BUFFER_WORDS: usize = 61;

// The stage.
pub(crate) const SURFACED: usize = BUFFER_WORDS;

pub(crate) const PICTURED: usize = SURFACED + 1;

pub(crate) const GROUPED: usize = PICTURED + 1;

pub(crate) const IN_GROUP: usize = GROUPED + 1;

pub(crate) const GROUP_START: usize = IN_GROUP + 1;

pub(crate) const IN_SLICE: usize = GROUP_START + 1;

pub(crate) const ENDED: usize = IN_SLICE + 1;

// The frame.
pub(crate) const WIDTH: usize = ENDED + 1;

pub(crate) const HEIGHT: usize = WIDTH + 1;

pub(crate) const PITCH: usize = HEIGHT + 1;

pub(crate) const CHROMA_ROW: usize = PITCH + 1;

// The picture.
pub(crate) const CODING: usize = CHROMA_ROW + 1;

pub(crate) const FORWARD_X: usize = CODING + 1;

pub(crate) const FORWARD_Y: usize = FORWARD_X + 1;

pub(crate) const BACKWARD_X: usize = FORWARD_Y + 1;

pub(crate) const BACKWARD_Y: usize = BACKWARD_X + 1;

pub(crate) const COLUMNS: usize = BACKWARD_Y + 1;

pub(crate) const ROWS: usize = COLUMNS + 1;

// The position.
pub(crate) const COLUMN: usize = ROWS + 1;

pub(crate) const ROW: usize = COLUMN + 1;

// The previous macroblock.
pub(crate) const KIND: usize = ROW + 1;

pub(crate) const FIVE: usize = KIND + 1;

pub(crate) const SIX: usize = FIVE + 1;

pub(crate) const SEVEN: usize = SIX + 1;

pub(crate) const EIGHT: usize = SEVEN + 1;

// What is touched: the ends.
pub(crate) const SOURCE_END: usize = EIGHT + 1;

pub(crate) const RECONSTRUCTED_END: usize = SOURCE_END + 1;

pub(crate) const FORWARD_END: usize = RECONSTRUCTED_END + 1;

pub(crate) const BACKWARD_END: usize = FORWARD_END + 1;

// The state's own.
pub(crate) const AT: usize = BACKWARD_END + 1;

pub(crate) const HELD: usize = AT + 1;

pub(crate) const STOPPED: usize = HELD + 1;

pub(crate) const NUMBER: usize = STOPPED + 1;

pub(crate) const PLACE: usize = NUMBER + 1;

// The lengths.
pub(crate) const SOURCE_LENGTH: usize = PLACE + 1;

pub(crate) const RECONSTRUCTED_LENGTH: usize = SOURCE_LENGTH + 1;

pub(crate) const FORWARD_LENGTH: usize = RECONSTRUCTED_LENGTH + 1;

pub(crate) const BACKWARD_LENGTH: usize = FORWARD_LENGTH + 1;

// What is touched: the first bytes.
pub(crate) const SOURCE_FIRST: usize = BACKWARD_LENGTH + 1;

pub(crate) const RECONSTRUCTED_FIRST: usize = SOURCE_FIRST + 1;

pub(crate) const FORWARD_FIRST: usize = RECONSTRUCTED_FIRST + 1;

pub(crate) const BACKWARD_FIRST: usize = FORWARD_FIRST + 1;

// The picture's bit 10.
pub(crate) const FRAME_PRED_FRAME_DCT: usize = BACKWARD_FIRST + 1;
