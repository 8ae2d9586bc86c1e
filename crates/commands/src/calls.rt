// The calls: an order on state and slices.

#![tactic(auto, unfolding(crate::specs::Calls::bound, crate::specs::Calls::forms, crate::specs::Calls::operand, crate::specs::Calls::input_place, crate::specs::Calls::done_place, crate::specs::Calls::perform, crate::specs::Reading::operands_of, crate::specs::Reading::count, crate::specs::Reading::made, crate::specs::Reading::ordered, crate::specs::Reading::worded_of))]

ghost use Rattle.std.specs.Prelude.{◌≡◌, [], ◌∷◌, ◌+◌, ◌*◌, ◌<◌, ◌≤◌, length};
ghost use Rattle.records.specs.Bytes.{words_at};
ghost use Rattle.lists.specs.Contract.{Meets};
ghost use Rattle.commands.specs.Calls.{perform, c01-push, c07-next-glyph, c0C-output-info, c0E-replace-glyphs};
ghost use Rattle.commands.specs.Reading.{worded_of};
ghost use Rattle.commands.specs.inner.Orders.{Makes};

use super::Order;
use lists::{Buffer, Reply};
use records::operands::bound;
use records::{DonePlace, GlyphInfo, InputPlace};

// 0C: a glyph of an order's operands. Not one function shared with try_edits: it would take five bare words; here each stands beside its name.
#[tactic(auto, using(crate::proofs::CallLaws::operand_laws), unfolding(crate::specs::Calls::perform))]
fn output_info(b: Buffer, first: &mut [u32], second: &mut [u32], o: Order) -> Reply
    ensures { Meets (λ capacity a. perform 0 capacity (c0C-output-info o.b o.c o.d o.e) (o.a ∷ []) a) b first.old second.old result first.new second.new }
{
    let g = GlyphInfo {
        glyph: o.a,
        mask: o.b,
        cluster: o.c,
        var0: o.d,
        var1: o.e,
        origin: 0,
    };
    edits::writing::output_info(b, first, second, g)
}

// 0E: its glyph numbers stand in the string.
#[tactic(auto, using(crate::proofs::CallLaws::operand_laws), unfolding(crate::specs::Calls::perform))]
fn replace_glyphs(
    b: Buffer,
    first: &mut [u32],
    second: &mut [u32],
    script: &[u8],
    o: Order,
) -> Reply
    requires { o.numbers + 4 * o.b ≤ length script.now }
    ensures { Meets (λ capacity a. perform 0 capacity (c0E-replace-glyphs o.a o.b) (words_at script.now o.numbers o.b) a) b first.old second.old result first.new second.new }
{
    let num_in = o.a as usize;
    let num_out = o.b as usize;
    let from = o.numbers;
    let to = from + 4 * num_out;
    edits::replacing::replace_glyphs_from_bytes(
        b,
        first,
        second,
        num_in,
        num_out,
        &script[from..to],
    )
}

// Strings are mostly made of 01 and 07: each has a function of its own, and the others stand in groups. None is kept out of line: the state
// then goes in and out through memory, and a command costs 1.6 to 1.8 times as much. One match of all 39 costs up to twice as much.
#[tactic(auto, using(crate::proofs::CallLaws::operand_laws), unfolding(crate::specs::Calls::perform))]
fn push(b: Buffer, first: &mut [u32], second: &mut [u32], number: u32, cluster: u32) -> Reply
    ensures { Meets (λ capacity a. perform 0 capacity (c01-push cluster) (number ∷ []) a) b first.old second.old result first.new second.new }
{
    edits::filling::push(b, first, second, number, cluster)
}

fn next_glyph(b: Buffer, first: &mut [u32], second: &mut [u32]) -> Reply
    ensures { Meets (λ capacity a. perform 0 capacity c07-next-glyph [] a) b first.old second.old result first.new second.new }
{
    lists::cursor::next_glyph(b, first, second)
}

// 00, and 02 to 06.
fn prepare(b: Buffer, first: &mut [u32], second: &mut [u32], o: Order) -> Reply
    requires { (o.byte < 7) × (o.byte ≡ 1 → ⊥) }
    ensures { Makes o b first.old second.old result first.new second.new }
{
    match o.byte {
        0x00 => lists::cursor::fresh(b, first, second, o.a, o.b),
        0x02 => edits::filling::set_length(b, first, second, o.a as usize),
        0x03 => lists::cursor::clear_output(b, first, second),
        0x04 => lists::cursor::sync(b, first, second),
        0x05 => lists::cursor::clear_positions(b, first, second),
        _ => edits::filling::place(b, first, second, InputPlace::from(o.a), o.b, o.c, o.d, o.e),
    }
}

// 08 to 10.
fn write(b: Buffer, first: &mut [u32], second: &mut [u32], script: &[u8], o: Order) -> Reply
    requires { (8 ≤ o.byte) × (o.byte < 17) × (o.byte ≡ 14 → o.numbers + 4 * o.b ≤ length script.now) }
    ensures { Meets (λ capacity a. perform 0 capacity (worded_of script.now o).call (worded_of script.now o).glyphs a) b first.old second.old result first.new second.new }
{
    match o.byte {
        0x08 => lists::cursor::next_glyphs(b, first, second, o.a as usize),
        0x09 => lists::cursor::skip_glyph(b, first, second),
        0x0A => edits::writing::copy_glyph(b, first, second),
        0x0B => edits::writing::output_glyph(b, first, second, o.a),
        0x0C => output_info(b, first, second, o),
        0x0D => edits::replacing::replace_glyph(b, first, second, o.a),
        0x0E => replace_glyphs(b, first, second, script, o),
        0x0F => edits::deleting::delete_glyph(b, first, second),
        _ => lists::cursor::move_to(b, first, second, o.a as usize),
    }
}

// 11 to 14.
fn merge(b: Buffer, first: &mut [u32], second: &mut [u32], o: Order) -> Reply
    requires { (17 ≤ o.byte) × (o.byte < 21) }
    ensures { Makes o b first.old second.old result first.new second.new }
{
    let (start, end) = (InputPlace::from(o.a), InputPlace::from(o.b));
    let (from, to) = (DonePlace::from(o.a), DonePlace::from(o.b));
    match o.byte {
        0x11 => edits::merges::merge_clusters(b, first, second, start, end),
        0x12 => edits::merges::merge_out_clusters(b, first, second, from, to),
        0x13 => edits::merges::merge_grapheme_clusters(b, first, second, start, end),
        _ => edits::merges::merge_out_grapheme_clusters(b, first, second, from, to),
    }
}

// 15 to 19, between bounds.
fn flag(b: Buffer, first: &mut [u32], second: &mut [u32], o: Order) -> Reply
    requires { (21 ≤ o.byte) × (o.byte < 26) }
    ensures { Makes o b first.old second.old result first.new second.new }
{
    let start = bound::<InputPlace>(o.a);
    let end = bound::<InputPlace>(o.b);
    let from = bound::<DonePlace>(o.a);
    match o.byte {
        0x15 => edits::flagging::unsafe_to_break(b, first, second, start, end),
        0x16 => edits::flagging::unsafe_to_concat(b, first, second, start, end),
        0x17 => edits::flagging::safe_to_insert_tatweel(b, first, second, start, end),
        0x18 => edits::flagging::unsafe_to_break_from_outbuffer(b, first, second, from, end),
        _ => edits::flagging::unsafe_to_concat_from_outbuffer(b, first, second, from, end),
    }
}

// 1A to 26, the last command byte.
fn arrange(b: Buffer, first: &mut [u32], second: &mut [u32], o: Order) -> Reply
    requires { (26 ≤ o.byte) × (o.byte < 39) }
    ensures { Makes o b first.old second.old result first.new second.new }
{
    let (start, end) = (InputPlace::from(o.a), InputPlace::from(o.b));
    match o.byte {
        0x1A => edits::relabeling::set_masks(b, first, second, o.a, o.b, o.c, o.d),
        0x1B => edits::reversing::reverse(b, first, second),
        0x1C => edits::reversing::reverse_range(b, first, second, start, end),
        0x1D => edits::reversing::reverse_clusters(b, first, second),
        0x1E => edits::reversing::reverse_graphemes(b, first, second, o.a, o.b),
        0x1F => edits::relabeling::reset_clusters(b, first, second),
        0x20 => edits::sorting::sort(b, first, second, start, end, o.c, o.d),
        0x21 => edits::deleting_inplace::delete_glyphs_inplace(b, first, second, o.a, o.b, o.c),
        0x22 => edits::grouping::form_clusters(b, first, second, o.a, o.b),
        0x23 => edits::propagating::propagate_flags(b, first, second),
        0x24 => lists::cursor::enter(b, first, second),
        0x25 => lists::cursor::leave(b, first, second),
        _ => lists::cursor::allocate_lig_id(b, first, second),
    }
}

// The call of an order that was read from a string. By the bytes: they are the format, and an enum between byte and call would say these
// tables twice.
pub(crate) fn call(
    b: Buffer,
    first: &mut [u32],
    second: &mut [u32],
    script: &[u8],
    o: Order,
) -> Reply
    requires { (o.byte < 39) × (o.byte ≡ 14 → o.numbers + 4 * o.b ≤ length script.now) }
    ensures { Meets (λ capacity a. perform 0 capacity (worded_of script.now o).call (worded_of script.now o).glyphs a) b first.old second.old result first.new second.new }
{
    match o.byte {
        0x01 => push(b, first, second, o.a, o.b),
        0x07 => next_glyph(b, first, second),
        0x00..=0x06 => prepare(b, first, second, o),
        0x08..=0x10 => write(b, first, second, script, o),
        0x11..=0x14 => merge(b, first, second, o),
        0x15..=0x19 => flag(b, first, second, o),
        _ => arrange(b, first, second, o),
    }
}
