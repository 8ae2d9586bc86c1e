// The flag forms on slices. The end of a range is not in it, and a range may be empty.
ghost use Rattle.std.specs.Prelude.{◌≡◌, ◌≤◌, Some, None, length, if◌then◌else◌};
ghost use Rattle.std.proofs.Math.Seq.{slice};
ghost use Rattle.records.specs.Ranges.{clusters};
ghost use Rattle.records.specs.View.{glyphs};
ghost use Rattle.lists.specs.Account.{read_level};
ghost use Rattle.edits.specs.Flags.{sought};
ghost use Rattle.edits.specs.inner.Marks.{flagged_run, marked_part, sought_out, OutFlaggable, OutFlagged};

use super::flags;
use lists::{Lists, swapping};

// How a form marks: the interior of a range or every glyph, by which level it searches, and with which bits.
#[derive(Clone, Copy)]
pub(crate) struct FlagForm {
    // A flag, as the definitions of the account take it.
    pub interiorly: bool,
    pub level: u32,
    pub bits: u32,
}

// A plain form on the run.
#[tactic(auto, using(crate::proofs::MarkLaws::marking))]
pub(crate) fn flag_run(ws: &mut [u32], form: FlagForm, s: usize, e: usize)
    requires { (s ≤ e) × (e ≤ length (glyphs ws.old)) }
    ensures { glyphs ws.new ≡ flagged_run form.interiorly (read_level form.level) form.bits s e (glyphs ws.old) }
{
    if form.interiorly {
        if 1 < e - s {
            flags::flag_range(ws, form.level, form.bits, s, e);
        }
    } else {
        lists::ranges::or_masks(ws, s, e, form.bits);
    }
}

// One of the two ranges of an outbuffer form, for the cluster that it sought: the interior, or with none every glyph.
#[tactic(auto, using(crate::proofs::MarkLaws::marking))]
fn flag_part(ws: &mut [u32], form: FlagForm, sought: Option<u32>, s: usize, e: usize)
    requires { (s ≤ e) × (e ≤ length (glyphs ws.old)) }
    ensures { glyphs ws.new ≡ marked_part sought (read_level form.level) form.bits s e (glyphs ws.old) }
{
    if let Some(cluster) = sought {
        if s < e {
            flags::mark_interior(ws, form.level, cluster, form.bits, s, e);
        }
    } else {
        lists::ranges::or_masks(ws, s, e, form.bits);
    }
}

// The cluster that a form seeks in a range. An empty range has the largest word, and no option: the account's `sought` of no clusters is that
// word, and no cluster is above it.
#[tactic(auto, using(crate::proofs::MarkLaws::marking))]
fn sought_in(ws: &[u32], level: u32, s: usize, e: usize) -> u32
    requires { (s ≤ e) × (e ≤ length (glyphs ws.now)) }
    ensures { result ≡ sought (read_level level) (slice s e (clusters (glyphs ws.now))) }
{
    if s < e {
        return flags::sought_cluster(ws, level, s, e);
    }
    u32::MAX
}

// The cluster that an outbuffer form seeks: from place s of the output on, and up to place e of the run. A concat form marks every glyph,
// and seeks none.
#[tactic(auto, unfolding(crate::specs::inner::Marks::sought_out))]
fn sought_out(
    run: &[u32],
    other: &[u32],
    at: Lists,
    form: FlagForm,
    s: usize,
    e: usize,
) -> Option<u32>
    requires { OutFlaggable at s e run.now other.now }
    ensures { result ≡ (if form.interiorly then Some (sought_out (read_level form.level) s at.out_len at.idx e (glyphs run.now) (if at.separate then glyphs other.now else glyphs run.now)) else None) }
{
    if form.interiorly {
        let output = swapping::one_of(run, other, at.separate);
        let in_output = sought_in(output, form.level, s, at.out_len);
        return Some(std::cmp::min(in_output, sought_in(run, form.level, at.idx, e)));
    }
    None
}

// An outbuffer form: both ranges, the output's first.
#[tactic(auto, using(crate::proofs::MarkLaws::out_marking))]
pub(crate) fn flag_out(
    run: &mut [u32],
    other: &mut [u32],
    at: Lists,
    form: FlagForm,
    s: usize,
    e: usize,
)
    requires { OutFlaggable at s e run.old other.old }
    ensures { OutFlagged form.interiorly (read_level form.level) form.bits at s e run.old other.old run.new other.new }
{
    let m = sought_out(run, other, at, form, s, e);
    swapping::act_on(
        run,
        other,
        at.separate,
        |out, _rest| flag_part(out, form, m, s, at.out_len),
    );
    flag_part(run, form, m, at.idx, e);
}
