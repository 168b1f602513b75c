// One MACROBLOCK command of a row.
ghost use Rattle.std.specs.Prelude.{◌≡◌, ◌+◌, ◌<◌, ◌≤◌, eqb, IfSome};
ghost use Rattle.rows.specs.Steps.{lines_of, is_predicted, typed_as, AtWord, VectorFound, BlockFound, BlocksFound, ByForward, ByBackward, ByBoth, ByField, ByFrame, ByCoded, StepFrom};

use crate::words;
use picture::Picture;
use prediction::{Line, Position, Structure};
use prediction_code::extents;
use progress::Progress;
use rows::{Ends, Lines};

// The lines of a picture.
#[tactic(auto, unfolding(rows::specs::Steps::lines_of))]
fn lines_of(picture: Picture) -> Lines
    ensures { result ≡ lines_of picture }
{
    let columns = picture.grid.columns;
    let rows = picture.grid.rows;
    let forward_x = prediction_code::line_of(Structure::Frame, columns, picture.forward.x);
    let forward_y = prediction_code::line_of(Structure::Frame, rows, picture.forward.y);
    let field_y = prediction_code::line_of(Structure::TopField, rows, picture.forward.y);
    let backward_x = prediction_code::line_of(Structure::Frame, columns, picture.backward.x);
    let backward_y = prediction_code::line_of(Structure::Frame, rows, picture.backward.y);
    let allowed = placement_code::allowed_in(picture);
    Lines {
        forward_x,
        forward_y,
        field_y,
        backward_x,
        backward_y,
        allowed,
    }
}

// Whether a picture of this type has macroblocks that are predicted.
fn is_predicted(coding: u8) -> bool
    ensures { result ≡ is_predicted coding }
{
    matches!(coding, 2 | 3)
}

// Word 2 of a macroblock at a column and a row.
fn place_word(column: u16, row: u16) -> u32
    ensures { AtWord result column row }
{
    macroblock_code::word2_of(column, row)
}

// A row as its commands are judged: the progress before the first of them, and the lines of its picture.
#[derive(Clone, Copy)]
pub(crate) struct Row {
    progress: Progress,
    lines: Lines,
    ghost of_picture: { lines ≡ lines_of progress.picture },
}

// Column, ends and words stay apart: they are new for each command, and a struct would be made for each.
impl Row {
    pub(crate) fn new(progress: Progress) -> Self
        ensures { result.progress ≡ progress }
    {
        let lines = lines_of(progress.picture);
        Row { progress, lines }
    }

    // What a vector touches in the frame of the reference with these lines, joined to an end: none where it leaves them. It is put in at each
    // call, since the loop over a row is faster so.
    #[inline(always)]
    #[tactic(auto, using(prediction::proofs::ExtentLaws::join_end))]
    fn reach(&self, x: Line, y: Line, column: u16, end: u64, word: u32) -> Option<u64>
        ensures { IfSome result (λ r. VectorFound self.now.progress column x y word end r) }
    {
        let surface = self.progress.frame.surface;
        let position = Position {
            column,
            ..self.progress.position
        };
        let row = position.row;
        if !prediction_code::vector_in_lines(Structure::Frame, x, y, column, row, word) {
            return None;
        }
        let touched = prediction_code::reach_end(Structure::Frame, surface, position, word);
        Some(extents::join_ends(end, touched))
    }

    // A macroblock that is predicted forward only. It and the next are two functions, since they ask for other pictures and words (`ByForward`,
    // `ByBackward`); what they share is `reach`.
    fn judge_forward(&self, column: u16, ends: Ends, words: &[u32]) -> Option<Ends>
        ensures { ByForward self.now.progress column ends.forward ends.backward words.now result }
    {
        let five = headers_code::word_at(words, 5);
        if !is_predicted(self.progress.picture.coding) || five != headers_code::word_at(words, 6) {
            return None;
        }
        let x = self.lines.forward_x;
        let y = self.lines.forward_y;
        let forward = self.reach(x, y, column, ends.forward, five)?;
        Some(Ends { forward, ..ends })
    }

    // A macroblock that is predicted backward only.
    fn judge_backward(&self, column: u16, ends: Ends, words: &[u32]) -> Option<Ends>
        ensures { ByBackward self.now.progress column ends.forward ends.backward words.now result }
    {
        let six = headers_code::word_at(words, 6);
        if self.progress.picture.coding != 3 || headers_code::word_at(words, 5) != six {
            return None;
        }
        let x = self.lines.backward_x;
        let y = self.lines.backward_y;
        let backward = self.reach(x, y, column, ends.backward, six)?;
        Some(Ends { backward, ..ends })
    }

    // A macroblock that is predicted from both references.
    fn judge_both(&self, column: u16, ends: Ends, words: &[u32]) -> Option<Ends>
        ensures { ByBoth self.now.progress column ends.forward ends.backward words.now result }
    {
        if self.progress.picture.coding != 3 {
            return None;
        }
        let five = headers_code::word_at(words, 5);
        let six = headers_code::word_at(words, 6);
        let lines = self.lines;
        let forward = self.reach(lines.forward_x, lines.forward_y, column, ends.forward, five)?;
        let backward = self.reach(
            lines.backward_x,
            lines.backward_y,
            column,
            ends.backward,
            six,
        )?;
        Some(Ends { forward, backward })
    }

    // What the first or the second block of a field prediction touches, joined to an end: none where its vector leaves its lines.
    #[tactic(auto, using(prediction::proofs::ExtentLaws::join_end), unfolding(rows::specs::Steps::lines_of))]
    fn field_block(&self, column: u16, block: u8, end: u64, words: &[u32]) -> Option<u64>
        requires { block < 2 }
        ensures { IfSome result (λ r. BlockFound self.now.progress column words.now block end r) }
    {
        let surface = self.progress.frame.surface;
        let position = Position {
            column,
            ..self.progress.position
        };
        let lines = self.lines;
        let word = headers_code::word_at(words, 5 + 2 * (block as usize));
        let four = headers_code::word_at(words, 4);
        let field = placement_code::field_of(fields_code::is_set(four, 16 + 2 * block));
        if !prediction_code::vector_in_lines(
            field,
            lines.forward_x,
            lines.field_y,
            column,
            position.row,
            word,
        ) {
            return None;
        }
        let touched = prediction_code::reach_end(field, surface, position, word);
        Some(extents::join_ends(end, touched))
    }

    // Both blocks of a field prediction. They are asked for at one place, so that what they need is there once.
    fn field_blocks(&self, column: u16, forward: u64, words: &[u32]) -> Option<u64>
        ensures { IfSome result (λ r. BlocksFound self.now.progress column words.now forward r) }
    {
        let mut end = forward;
        for block in 0..2 {
            end = self.field_block(column, block, end, words)?;
        }
        Some(end)
    }

    fn is_last(&self, column: u16) -> bool
        ensures { result ≡ eqb (column + 1) self.now.progress.picture.grid.columns }
    {
        column as u32 + 1 == self.progress.picture.grid.columns as u32
    }

    // A macroblock that is predicted from fields, whose word 1 says so.
    #[tactic(auto, unfolding(rows::specs::Steps::lines_of))]
    fn judge_field(&self, column: u16, due: u32, ends: Ends, words: &[u32]) -> Option<Ends>
        ensures { ByField self.now.progress column ends.forward ends.backward words.now due result }
    {
        let four = words::without_choices(headers_code::word_at(words, 4));
        if !self.lines.allowed.field
            || !words::flags_keep(four, due, self.is_last(column))
            || !words::field_keeps(words)
        {
            return None;
        }
        let forward = self.field_blocks(column, ends.forward, words)?;
        Some(Ends { forward, ..ends })
    }

    // An inter macroblock that is predicted from frames, whose word 1 has this type.
    fn judge_inter(
        &self,
        column: u16,
        ends: Ends,
        low: u32,
        before: &[u32],
        words: &[u32],
    ) -> Option<Ends>
        requires { low ≡ typed_as self.now.progress words.now }
        ensures { ByFrame self.now.progress column ends.forward ends.backward words.now before.now result }
    {
        if !words::inter_keeps(self.progress.picture.coding, before, words) {
            return None;
        }
        // One test behind the other: a `match` takes four to five instructions more for a macroblock that is predicted forward
        // (`tests/benchmark/run instructions`).
        let kind = fields_code::with_bits(low, 2, 2, 0);
        if kind == words::BOTH {
            return self.judge_both(column, ends, words);
        }
        if kind == words::FORWARD {
            return self.judge_forward(column, ends, words);
        }
        if kind == words::BACKWARD {
            return self.judge_backward(column, ends, words);
        }
        None
    }

    // What a command behind its words 0 and 2 comes to, by its type.
    #[tactic(auto, using(std::proofs::lemmas::Option::IfSome_then), unfolding(rows::specs::Steps::lines_of))]
    fn judge_coded(
        &self,
        column: u16,
        due: u32,
        ends: Ends,
        before: &[u32],
        words: &[u32],
    ) -> Option<Ends>
        ensures { ByCoded self.now.progress column ends.forward ends.backward words.now due before.now result }
    {
        let low = words::type_bits(self.lines.allowed.dct_type, headers_code::word_at(words, 1));
        if low == words::FIELDS {
            return self.judge_field(column, due, ends, words);
        }
        if !words::flags_keep(headers_code::word_at(words, 4), due, self.is_last(column)) {
            return None;
        }
        if low != words::INTRA {
            return self.judge_inter(column, ends, low, before, words);
        }
        if !words::intra_keeps(self.progress.picture.coding, words) {
            return None;
        }
        Some(ends)
    }

    // The command at a column of the row. `due` are the bound bits of its word 4, `before` the command before it in the row.
    #[tactic(auto, using(std::proofs::lemmas::Option::IfSome_then))]
    pub(crate) fn judge_next(
        &self,
        column: u16,
        due: u32,
        ends: Ends,
        before: &[u32],
        words: &[u32],
    ) -> Option<Ends>
        ensures { StepFrom self.now.progress column ends.forward ends.backward words.now due before.now result }
    {
        let here = place_word(column, self.progress.position.row);
        if headers_code::word_at(words, 0) != headers::MACROBLOCK_HEADER
            || headers_code::word_at(words, 2) != here
        {
            return None;
        }
        self.judge_coded(column, due, ends, before, words)
    }
}
