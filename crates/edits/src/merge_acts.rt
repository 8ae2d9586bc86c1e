// Merges by places: the glyphs of a merge, and what it costs.
// The branches are by what the state says as the call runs: closures would be chosen by the same `if`.
#![tactic(auto, using(crate::proofs::MergeDecisions::merge_acting, crate::proofs::OutCalls::out_merge_acting))]

ghost use Rattle.std.specs.Prelude.{◌≡◌};
ghost use Rattle.edits.specs.inner.Charges.{MergesRun};
ghost use Rattle.edits.specs.inner.MergeActs.{merge_limits, MergeRoom, Merges, OutMergeRoom, OutMerges};

use super::{Way, flags, merging};
use lists::Lists;
use records::Limits;

// What a merge of n glyphs costs: nothing where it does not merge. By an early return: as one `if` with an `else` it was slower, by up to 10 in
// a hundred where glyphs of a key are deleted and graphemes merge.
pub(crate) fn merge_limits(l: Limits, merges: bool, n: usize) -> Limits
    ensures { result ≡ merge_limits merges n l }
{
    if merges && 2 <= n {
        return l.pay(n);
    }
    l
}

// A merge of the places s to e of the run, or the flags that stand for it.
pub(crate) fn merge_by(
    run: &mut [u32],
    other: &mut [u32],
    lists: Lists,
    way: Way,
    s: usize,
    e: usize,
)
    requires { MergeRoom lists.len lists.out_len s e run.old other.old }
    ensures { Merges lists.separate way.merges way.level way.wants lists.idx lists.len lists.out_len s e run.old other.old run.new other.new }
{
    let n = e - s;
    if n < 2 {
        return;
    }
    if way.merges {
        merging::merge(run, other, lists, s, e);
        return;
    }
    if 255 < n {
        return;
    }
    let search = flags::search_level(way.level, way.wants);
    flags::flag_range(run, search, 3, s, e);
}

// A merge of the places s to e of a whole run of len glyphs.
pub(crate) fn merge_run(
    run: &mut [u32],
    other: &mut [u32],
    way: Way,
    len: usize,
    s: usize,
    e: usize,
)
    requires { MergeRoom len 0 s e run.old other.old }
    ensures { MergesRun way.merges way.level way.wants len s e run.old other.old run.new other.new }
{
    // The test of `merge_by`, made before its operands: most graphemes are one glyph, and 22 costs 57.8 instructions a glyph without, 51.4 so.
    if e - s < 2 {
        return;
    }
    let lists = Lists {
        idx: 0,
        len,
        out_len: 0,
        separate: false,
    };
    merge_by(run, other, lists, way, s, e);
}

// A merge of the places s to e of the output. Where it does not merge nothing happens: 12 and 14 flag nothing in its stead.
pub(crate) fn merge_out_by(
    run: &mut [u32],
    other: &mut [u32],
    lists: Lists,
    merges: bool,
    s: usize,
    e: usize,
)
    requires { OutMergeRoom lists.idx lists.len lists.out_len s e run.old other.old }
    ensures { OutMerges lists.separate merges lists.idx lists.len lists.out_len s e run.old other.old run.new other.new }
{
    if merges && 2 <= e - s {
        merging::merge_out(run, other, lists, s, e);
    }
}
