// Runs of six glyphs, with room for seven.
use super::{runs, scripts};
use driving::starts;
use lists::Buffer;
use records::Limits;
use std::fmt;

// A script over six glyphs with these clusters, at a level.
fn play(level: u32, clusters: [u32; 6], script: &str) -> fmt::Result {
    scripts::play(starts::start(6, 6, level), &runs::six(clusters), script)
}

// 0A: within the run while the cursor is ahead, apart from then on, up to the capacity.
fn copying() -> fmt::Result {
    play(
        0,
        [3, 3, 2, 5, 5, 6],
        "0A 03 09 0A . 0A . 084 0A 0A 09 0A . 04 .",
    )
}

// 0B: a copy of the glyph at the cursor; behind the input, of the last glyph written.
fn outputting() -> fmt::Result {
    play(0, [3, 3, 2, 5, 5, 6], "0B9 03 09 0B8 . 085 0B7 . 0B6 .")
}

// 0B with both lists empty makes its size only.
fn outputting_nothing() -> fmt::Result {
    scripts::play(starts::start(0, 0, 0), &[], "03 0B9 .")
}

// 0C: five words as given.
fn outputting_info() -> fmt::Result {
    play(
        0,
        [3, 3, 2, 5, 5, 6],
        "0C99891 03 09 0C99891 . 0C99891 085 0C99891 .",
    )
}

// 0D: one by one, within the run and apart.
fn replacing_one() -> fmt::Result {
    play(
        0,
        [3, 3, 2, 5, 5, 6],
        "0D9 03 0D8 . 0B7 0D6 . 0B5 083 0D4 09 0D3 .",
    )
}

// 0E turned back: by its phase, its inputs, its numbers before its size, its size, no input.
fn replacing_refused() -> fmt::Result {
    play(
        0,
        [5, 4, 4, 3, 3, 6],
        "0E11 03 0E71 0E14 0E19 085 0E13 . 09 0E11",
    )
}

// 0E apart: no inputs, no outputs, more numbers than stated. Each merge takes along what was written before.
fn replacing_apart() -> fmt::Result {
    play(0, [5, 4, 4, 3, 3, 6], "03 0E01 . 0E20 . 0E23 . 0E22 0E01 .")
}

// 0E within the run as long as the output stays behind the cursor.
fn replacing_within() -> fmt::Result {
    play(0, [5, 4, 4, 3, 3, 6], "03 0E31 0E13 . 0E12 . 04 .")
}

// 0F: the next glyph has the cluster; the equal tail of the output inherits it with the low bits of the mask; all that
// is written stands below it.
fn deleting() -> fmt::Result {
    play(0, [7, 7, 7, 5, 5, 9], "0F 03 0F 082 . 09 0F . 0F 0F .")
}

// 0F with output apart: the last glyph written has the cluster, then inherits one.
fn deleting_apart() -> fmt::Result {
    play(0, [8, 7, 5, 5, 4, 9], "03 0A 083 0F . 0F .")
}

// 0F with nothing written: the glyph merges with the next, or at level 2 the two are flagged.
fn deleting_forward(level: u32) -> fmt::Result {
    play(level, [3, 6, 6, 6, 5, 9], "03 0F .")
}

// 11 with output: both ends grow over their equals, and the equal tail of the output goes along.
fn merging() -> fmt::Result {
    play(0, [5, 5, 5, 3, 4, 4], "03 081 1102 1127 1132 1123 . 1125 .")
}

// 11 with output apart: an end that is the least does not grow, and only the tail of the output goes along.
fn merging_apart() -> fmt::Result {
    play(0, [8, 7, 7, 2, 2, 9], "03 0A 082 1124 .")
}

// 11 without output: the start does not fall below the cursor.
fn merging_plain() -> fmt::Result {
    play(0, [5, 5, 5, 3, 4, 4], "081 1124 .")
}

// 11 at a level that merges or flags.
fn merging_at(level: u32) -> fmt::Result {
    play(level, [5, 4, 3, 4, 3, 6], "1105 .")
}

// 12: both ends grow over their equals, and at the end of the output the equal head of the input goes along.
fn merging_out() -> fmt::Result {
    play(0, [4, 4, 2, 6, 6, 8], "1200 03 084 1215 1232 1212 . 1214 .")
}

// 12 with output apart, first in its middle, at a level that merges or does nothing.
fn merging_out_at(level: u32) -> fmt::Result {
    play(level, [2, 6, 6, 8, 8, 8], "03 0A 084 1213 . 1235 .")
}

// 13 and 14: levels 1 and 3 exchanged.
fn merging_graphemes_at(level: u32) -> fmt::Result {
    play(
        level,
        [7, 6, 6, 4, 5, 5],
        "1400 03 082 1314 1325 . 1403 1402 .",
    )
}

// 11 to 14 where a merge found no work left, and `sync` spoiled the buffer.
fn spoiled() -> fmt::Result {
    let start = starts::start(6, 6, 0);
    let limits = Limits {
        max_ops: 1,
        ..start.limits
    };
    let b = Buffer { limits, ..start };
    let script = "03 1102 . 04 1102 1200 1302 1400 0A";
    scripts::play(b, &runs::six([5, 4, 3, 4, 3, 6]), script)
}

// Slices of unequal lengths.
fn contradicted() -> fmt::Result {
    let mut first = [0u32; super::SEVEN];
    let mut second = [0u32; super::SIX];
    let script = "0A 0B9 0C99891 0D9 0E11 0F 1102 1200 1302 1400";
    scripts::run(starts::start(6, 6, 0), &mut first, &mut second, script)
}

fn writes() -> fmt::Result {
    copying()?;
    outputting()?;
    outputting_nothing()?;
    outputting_info()?;
    replacing_one()?;
    replacing_refused()?;
    replacing_apart()?;
    replacing_within()
}

pub(crate) fn all() -> fmt::Result {
    writes()?;
    deleting()?;
    deleting_apart()?;
    deleting_forward(0)?;
    deleting_forward(2)?;
    merging()?;
    merging_apart()?;
    merging_plain()?;
    merging_at(1)?;
    merging_at(2)?;
    merging_at(3)?;
    merging_out()?;
    merging_out_at(1)?;
    merging_out_at(2)?;
    merging_graphemes_at(1)?;
    merging_graphemes_at(3)?;
    spoiled()?;
    contradicted()
}
