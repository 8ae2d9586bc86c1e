// What is printed at the end of a run, line by line. Buffer and slices, and the slice and place of a line, are parameters as callers lend them.
ghost use Rattle.std.specs.Prelude.{◌≡◌, length};
ghost use Rattle.commands.specs.{Texts.Prints, Lines.reported, Lines.line_of};

use super::{counting, lines};
use lists::{Buffer, items, state};

// How many lines there are.
#[tactic(auto, using(crate::proofs::ReportLaws::reporting))]
pub fn report_count(b: Buffer, first: &[u32], second: &[u32]) -> usize
    ensures { result ≡ length (reported b first.now second.now) }
{
    if state::is_sound(b, first, second) {
        return 2 + items::item_count(b, first, second);
    }
    0
}

// The k-th of them, counted from 0; past the last, nothing.
#[tactic(auto, using(crate::proofs::ReportLaws::lines_of_reports))]
pub fn report_line(
    out: &mut [u8],
    at: usize,
    b: Buffer,
    first: &[u32],
    second: &[u32],
    k: usize,
) -> usize
    ensures { Prints (line_of k (reported b first.now second.now)) out.old at result out.new }
{
    if !state::is_sound(b, first, second) {
        return at;
    }
    if k == 0 {
        return lines::print(out, at, &b);
    }
    let i = k - 1;
    if i == items::item_count(b, first, second) {
        return lines::print(out, at, &counting::totals(b, first, second));
    }
    match items::item(b, first, second, i) {
        Some(item) => lines::print(out, at, &item),
        None => at,
    }
}
