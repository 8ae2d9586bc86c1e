// Calls on the whole run and flags, each list from a fresh buffer.
use super::scripts;
use lists::Buffer;
use std::fmt;

// A script from a fresh buffer.
fn play(level: u32, wants: u32, script: &str) -> fmt::Result {
    let fresh = Buffer::new(level, wants);
    scripts::play(fresh.buffer, &[], script)
}

// 01: up to the capacity; not with output, a moved cursor or positions.
fn pushing() -> fmt::Result {
    play(
        0,
        0,
        "0113 0124 . 03 0135 04 0136 0147 0157 0168 0179 018- . 09 0191 .",
    )?;
    play(0, 0, "0113 05 0124 .")
}

// 02: new glyphs and positions are zero; over the largest size it gives up.
fn sizing() -> fmt::Result {
    play(0, 0, "0113 0124 024 . 021 . 028 027 . 02- . 03 021")?;
    play(0, 0, "0113 0124 05 0601234 0615678 021 023 . 027 028 .")
}

// 06: one position; signed as it is printed.
fn placing() -> fmt::Result {
    play(0, 0, "0113 0124 060 05 061-23- . 062 06001 . 03 060")
}

// 1A: the bits of the mask become the value's, from a cluster up to another, or everywhere.
fn masking() -> fmt::Result {
    play(
        0,
        0,
        "0111 0122 0133 014- 1A9702 . 1A0404- . 1A9804 1A9101- . 1A10 . 03 1A1101-",
    )?;
    play(1, 0, "0111 0122 05 0601234 1A5512 .")
}

// 1B, 1C: positions go with their glyphs.
fn reversing() -> fmt::Result {
    play(0, 0, "0111 0122 0133 0144 1B . 1C13 . 1C31 1C25 03 1B 1C01")?;
    play(
        0,
        0,
        "0111 0122 0133 0144 0155 05 0601234 0615678 0629876 1B . 1C14 . 1C22 1C05 .",
    )
}

// 1D: the order of clusters, not that within one.
fn reversing_clusters() -> fmt::Result {
    play(
        0,
        0,
        "1D 0111 0121 0132 0143 0153 0163 1D . 05 0601234 0619999 1D . 03 1D",
    )
}

// Glyphs with variables are written as output, and synced.
fn reversing_graphemes(level: u32) -> fmt::Result {
    play(
        level,
        0,
        "03 0C10110 0C20221 0C30330 0C40402 0C50513 0C60602 04 1E01 . 1E12 . 1E20 05 0601234 1E01 .",
    )
}

// 1F: each its place, masks as they were.
fn resetting() -> fmt::Result {
    play(
        0,
        0,
        "03 0C17900 0C25800 0C34-00 04 1F . 05 0611111 1F . 03 1F",
    )
}

// 20: strictly greater keys are passed, and what they pass merges.
fn sorting(level: u32) -> fmt::Result {
    play(
        level,
        0,
        "03 0C10020 0C20110 0C30210 04 200301 200303 . 201312 20032 203101 20041 05 200301",
    )?;
    play(
        level,
        0,
        "03 0C11340 0C22031 0C33422 0C44213 0C55504 0C66105 04 201500 . 200617 . 200607 .",
    )
}

// 21: a dropped cluster survives, goes to the tail of what is kept, or merges forward.
fn deleting_inplace(level: u32) -> fmt::Result {
    play(
        level,
        0,
        "03 0C11310 0C22311 0C33510 0C44210 0C55211 0C66610 04 21171 . 21171 21170 . 2120",
    )?;
    play(
        level,
        0,
        "03 0C11310 0C22201 0C33501 0C44410 0C55110 04 05 0601111 0612222 0623333 0634444 0645555 21031 . 03 21010",
    )
}

// 22: each grapheme becomes a cluster, or is flagged.
fn forming_clusters(level: u32) -> fmt::Result {
    play(
        level,
        0,
        "03 0C11500 0C22310 0C33310 0C44201 0C55710 0C66610 04 2201 . 2220 05 2211 . 03 2201",
    )
}

// 23: flags of one cluster are joined and settled.
fn propagating(wants: u32) -> fmt::Result {
    play(
        0,
        wants,
        "03 0C11000 0C24000 0C34100 0C49200 0C58200 0C62300 0C77300 04 23 . 05 23 03 23",
    )
}

// 15 to 17 without output.
fn flagging(level: u32, wants: u32) -> fmt::Result {
    play(
        level,
        wants,
        "0113 0121 0132 0141 0153 1505 . 1634 1724 . 15-- 15-3 1631 . 1531 1578 168- 172- .",
    )?;
    play(level, wants, "0113 0121 0132 05 0601234 1503 16-- .")
}

// 15 to 19 with output, in the run and apart.
fn flagging_output(level: u32, wants: u32) -> fmt::Result {
    play(
        level,
        wants,
        "0115 0121 0132 0141 0153 03 082 09 1835 . 1915 19-4 . 1515 1545 15-4 1830 1851 .",
    )?;
    play(
        level,
        wants,
        "0115 0121 18-1 03 0C90500 0C80100 0C70200 18-1 . 19-- 1723 18-- 1831 193- .",
    )
}

fn at(level: u32, wants: u32) -> fmt::Result {
    reversing_graphemes(level)?;
    sorting(level)?;
    deleting_inplace(level)?;
    forming_clusters(level)?;
    flagging(level, level)?;
    flagging_output(level, wants)
}

// A level above 3 reads as 0.
fn above() -> fmt::Result {
    reversing_graphemes(4)?;
    sorting(4)?;
    deleting_inplace(4)?;
    forming_clusters(4)?;
    flagging(4, 3)?;
    flagging_output(4, 0)
}

pub(crate) fn all() -> fmt::Result {
    pushing()?;
    sizing()?;
    placing()?;
    masking()?;
    reversing()?;
    reversing_clusters()?;
    resetting()?;
    propagating(0)?;
    propagating(1)?;
    propagating(2)?;
    propagating(3)?;
    at(0, 3)?;
    at(1, 2)?;
    at(2, 1)?;
    at(3, 0)?;
    above()
}
