// A state in the lines of document 01.
use driving::output::Stdout;
use lists::{Buffer, Item, items};
use records::{GlyphInfo, Position};
use std::fmt;
use std::fmt::Write;

// Glyph, cluster, mask, var0, var1: document 01's words, which harfrust has too.
fn glyph_line(list: &str, g: GlyphInfo) -> fmt::Result {
    write!(Stdout, "{list} {} {} {}", g.glyph, g.cluster, g.mask)?;
    writeln!(Stdout, " {} {}", g.var0, g.var1)
}

// Four signed words, and the fifth.
fn position_line(p: Position) -> fmt::Result {
    let (x_advance, y_advance) = (p.x_advance.cast_signed(), p.y_advance.cast_signed());
    let (x_offset, y_offset) = (p.x_offset.cast_signed(), p.y_offset.cast_signed());
    write!(Stdout, "x {x_advance} {y_advance}")?;
    writeln!(Stdout, " {x_offset} {y_offset} {}", p.var)
}

fn item_line(item: Item) -> fmt::Result {
    match item {
        Item::OfDone(g) => glyph_line("o", g),
        Item::OfPassed(g) => glyph_line("p", g),
        Item::OfRest(g) => glyph_line("i", g),
        Item::OfPosition(p) => position_line(p),
    }
}

// len, idx, out_len, max_ops, successful; then the allocated size, and whether the output lies apart, which no account
// shows.
fn end_line(b: Buffer) -> fmt::Result {
    let ops = b.limits.max_ops.cast_signed();
    let successful = u32::from(b.limits.successful);
    let apart = u32::from(b.have_separate_output);
    write!(Stdout, "end {} {} {} ", b.len.0, b.idx.0, b.out_len.0)?;
    writeln!(
        Stdout,
        "{ops} {successful} | {} {apart}",
        b.limits.allocated
    )
}

// The counters and the lists.
pub(crate) fn state(b: Buffer, first: &[u32], second: &[u32]) -> fmt::Result {
    end_line(b)?;
    for i in 0..items::item_count(b, first, second) {
        if let Some(item) = items::item(b, first, second, i) {
            item_line(item)?;
        }
    }
    Ok(())
}
