// Runs of six glyphs, 41 to 46, whose other words tell them apart.
use records::GlyphInfo;

// The mask is the number too: its low three bits differ from glyph to glyph, and those above are set.
fn glyph(number: u32, cluster: u32) -> GlyphInfo {
    GlyphInfo {
        glyph: number,
        mask: number,
        cluster,
        var0: number % 32,
        var1: number % 8,
        origin: number % 4,
    }
}

// The six glyphs, with these clusters.
pub(crate) fn six(clusters: [u32; 6]) -> [GlyphInfo; 6] {
    let [a, b, c, d, e, f] = clusters;
    [
        glyph(41, a),
        glyph(42, b),
        glyph(43, c),
        glyph(44, d),
        glyph(45, e),
        glyph(46, f),
    ]
}
