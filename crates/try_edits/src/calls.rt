// The calls by their numbers in document 01, as far as the runs need them. The texts name calls by number: an enum between number and
// call would only say this table twice.
use super::scripts::Call;
use edits::{
    deleting, deleting_inplace, filling, flagging, grouping, merges, propagating, relabeling,
    replacing, reversing, sorting, writing,
};
use lists::{Buffer, Reply, cursor, state};
use records::operands::bound;
use records::{DonePlace, GlyphInfo, InputPlace, Refusal};

// The operands of 0C: a glyph, with an origin, which the call leaves out. Not one function shared with commands: it would take five bare
// words; here each stands beside its name.
fn glyph(c: Call) -> GlyphInfo {
    GlyphInfo {
        glyph: c.v,
        mask: c.w,
        cluster: c.x,
        var0: c.y,
        var1: c.z,
        origin: c.v % 4,
    }
}

// 15 to 19, between bounds: `call` hands on no other number. Not by commands: this drives edits alone.
fn flag(b: Buffer, first: &mut [u32], second: &mut [u32], c: Call) -> Reply {
    let (start, end) = (bound(c.v), bound(c.w));
    let from = bound(c.v);
    match c.number {
        0x15 => flagging::unsafe_to_break(b, first, second, start, end),
        0x16 => flagging::unsafe_to_concat(b, first, second, start, end),
        0x17 => flagging::safe_to_insert_tatweel(b, first, second, start, end),
        0x18 => flagging::unsafe_to_break_from_outbuffer(b, first, second, from, end),
        _ => flagging::unsafe_to_concat_from_outbuffer(b, first, second, from, end),
    }
}

// The call that has this number, with its operands; a number that is not here is answered as unreadable. Not by commands: this drives
// edits alone.
pub(crate) fn call(b: Buffer, first: &mut [u32], second: &mut [u32], c: Call) -> Reply {
    let n = c.v as usize;
    let (start, end) = (InputPlace::from(c.v), InputPlace::from(c.w));
    let (from, to) = (DonePlace::from(c.v), DonePlace::from(c.w));
    match c.number {
        0x01 => filling::push(b, first, second, c.v, c.w),
        0x02 => filling::set_length(b, first, second, n),
        0x03 => cursor::clear_output(b, first, second),
        0x04 => cursor::sync(b, first, second),
        0x05 => cursor::clear_positions(b, first, second),
        0x06 => filling::place(b, first, second, start, c.w, c.x, c.y, c.z),
        0x08 => cursor::next_glyphs(b, first, second, n),
        0x09 => cursor::skip_glyph(b, first, second),
        0x0A => writing::copy_glyph(b, first, second),
        0x0B => writing::output_glyph(b, first, second, c.v),
        0x0C => writing::output_info(b, first, second, glyph(c)),
        0x0D => replacing::replace_glyph(b, first, second, c.v),
        // three glyph numbers, whatever count the operand says
        0x0E => replacing::replace_glyphs(b, first, second, n, c.w as usize, &[90, 91, 92]),
        0x0F => deleting::delete_glyph(b, first, second),
        0x11 => merges::merge_clusters(b, first, second, start, end),
        0x12 => merges::merge_out_clusters(b, first, second, from, to),
        0x13 => merges::merge_grapheme_clusters(b, first, second, start, end),
        0x14 => merges::merge_out_grapheme_clusters(b, first, second, from, to),
        0x15..=0x19 => flag(b, first, second, c),
        0x1A => relabeling::set_masks(b, first, second, c.v, c.w, c.x, c.y),
        0x1B => reversing::reverse(b, first, second),
        0x1C => reversing::reverse_range(b, first, second, start, end),
        0x1D => reversing::reverse_clusters(b, first, second),
        0x1E => reversing::reverse_graphemes(b, first, second, c.v, c.w),
        0x1F => relabeling::reset_clusters(b, first, second),
        0x20 => sorting::sort(b, first, second, start, end, c.x, c.y),
        0x21 => deleting_inplace::delete_glyphs_inplace(b, first, second, c.v, c.w, c.x),
        0x22 => grouping::form_clusters(b, first, second, c.v, c.w),
        0x23 => propagating::propagate_flags(b, first, second),
        _ => state::reply(b, Err(Refusal::Unreadable)),
    }
}
