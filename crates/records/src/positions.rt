// Positions in a slice of words, six words a position, of which the last is free.
#![tactic(auto, using(crate::proofs::Stores::position_words))]

ghost use Rattle.std.specs.Prelude.{◌≡◌, ◌<◌, length, slice_index_or, slice_set};
ghost use Rattle.records.specs.Glyphs.{zero_position};
ghost use Rattle.records.specs.View.{positions_in};

use super::words::PositionWord;
use super::{Position, words};

pub fn get(ws: &[u32], i: usize) -> Position
    requires { i < length (positions_in ws.now) }
    ensures { result ≡ slice_index_or (positions_in ws.now) i zero_position }
{
    let x_advance = words::word_at(ws, PositionWord::XAdvance, i);
    let y_advance = words::word_at(ws, PositionWord::YAdvance, i);
    let x_offset = words::word_at(ws, PositionWord::XOffset, i);
    let y_offset = words::word_at(ws, PositionWord::YOffset, i);
    let var = words::word_at(ws, PositionWord::Var, i);
    let free = words::word_at(ws, PositionWord::Free, i);
    Position {
        x_advance,
        y_advance,
        x_offset,
        y_offset,
        var,
        free,
    }
}

pub fn put(ws: &mut [u32], i: usize, p: Position)
    requires { i < length (positions_in ws.old) }
    ensures { positions_in ws.new ≡ slice_set (positions_in ws.old) i p }
{
    words::put_word(ws, PositionWord::XAdvance, i, p.x_advance);
    words::put_word(ws, PositionWord::YAdvance, i, p.y_advance);
    words::put_word(ws, PositionWord::XOffset, i, p.x_offset);
    words::put_word(ws, PositionWord::YOffset, i, p.y_offset);
    words::put_word(ws, PositionWord::Var, i, p.var);
    words::put_word(ws, PositionWord::Free, i, p.free);
}
