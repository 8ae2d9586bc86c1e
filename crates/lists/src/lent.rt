// The thin layer: calls on a state that is lent, and altered by each. Each is the call of the same name by value.
ghost use Rattle.lists.specs.Cursor.{next_glyphs, sync, move_to};
ghost use Rattle.lists.specs.Contract.{Meets};

use super::verdicts::stored;
use super::{Buffer, cursor};
use records::Answer;

// 08
pub fn next_glyphs(b: &mut Buffer, first: &mut [u32], second: &mut [u32], n: usize) -> Answer
    ensures { Meets (λ capacity a. next_glyphs capacity n a) b.old first.old second.old (record { buffer = b.new; answer = result }) first.new second.new }
{
    stored(cursor::next_glyphs(*b, first, second, n), b)
}

// 10
pub fn move_to(b: &mut Buffer, first: &mut [u32], second: &mut [u32], i: usize) -> Answer
    ensures { Meets (λ capacity a. move_to capacity i a) b.old first.old second.old (record { buffer = b.new; answer = result }) first.new second.new }
{
    stored(cursor::move_to(*b, first, second, i), b)
}

// 04
pub fn sync(b: &mut Buffer, first: &mut [u32], second: &mut [u32]) -> Answer
    ensures { Meets (λ capacity a. sync capacity a) b.old first.old second.old (record { buffer = b.new; answer = result }) first.new second.new }
{
    stored(cursor::sync(*b, first, second), b)
}
