// The thin layer: calls on a state that is lent, and altered by each. Each is the call of the same name by value.
// The numbers of calls are document 01's.
ghost use Rattle.lists.specs.Contract.{Meets};
ghost use Rattle.edits.specs.Writing.{output_glyph};
ghost use Rattle.edits.specs.Merging.{merge_input, clusters_merge};

use super::{merges, writing};
use lists::Buffer;
use lists::verdicts::stored;
use records::{Answer, InputPlace};

// 0B
pub fn output_glyph(b: &mut Buffer, first: &mut [u32], second: &mut [u32], number: u32) -> Answer
    ensures { Meets (λ capacity a. output_glyph capacity number a) b.old first.old second.old (record { buffer = b.new; answer = result }) first.new second.new }
{
    stored(writing::output_glyph(*b, first, second, number), b)
}

// 11
pub fn merge_clusters(
    b: &mut Buffer,
    first: &mut [u32],
    second: &mut [u32],
    start: InputPlace,
    end: InputPlace,
) -> Answer
    ensures { Meets (λ capacity a. merge_input (λ level. clusters_merge level) start end a) b.old first.old second.old (record { buffer = b.new; answer = result }) first.new second.new }
{
    stored(merges::merge_clusters(*b, first, second, start, end), b)
}
