// Deletion of the glyphs with a key: call 21. The glyphs kept so far are an output in the run, and their positions lie
// in the other slice, in the same places. The numbers of calls are document 01's.
#![tactic(auto, using(crate::proofs::Siftings::moving_down, crate::proofs::SiftedRuns::sifting))]

ghost use Rattle.std.specs.Prelude.{◌≡◌, ◌<◌, length, if◌then◌else◌, slice_index_or, slice_set};
ghost use Rattle.records.specs.Glyphs.{zero_position};
ghost use Rattle.records.specs.View.{positions_in};
ghost use Rattle.lists.specs.Contract.{Meets};
ghost use Rattle.lists.specs.Account.{read_level};
ghost use Rattle.edits.specs.Merging.{clusters_merge};
ghost use Rattle.edits.specs.Deleting.{delete_glyphs_inplace};
ghost use Rattle.edits.specs.inner.Deletes.{kept_with, MoveRoom, MovesGlyph, Sifts};
ghost use Rattle.edits.specs.inner.Wholes.{RunRoom};

use super::{Kept, Keyed, deleting, merge_acts, merges, ways, whole};
use lists::swapping::Outcome;
use lists::{Buffer, Lists, Reply, Verdict, state, swapping};
use records::{Key, Limits};

// A position goes to another place, where there are positions: the state says it, so a closure would be chosen by the same `if`.
fn move_position(ws: &mut [u32], positions: bool, from: usize, to: usize)
    requires { (from < length (positions_in ws.old)) × (to < length (positions_in ws.old)) }
    ensures { positions_in ws.new ≡ (if positions then slice_set (positions_in ws.old) to (slice_index_or (positions_in ws.old) from zero_position) else positions_in ws.old) }
{
    if positions {
        let p = records::positions::get(ws, from);
        records::positions::put(ws, to, p);
    }
}

// A glyph goes to another place, with its position. Where it lies there already, nothing is written.
fn move_glyph(run: &mut [u32], other: &mut [u32], positions: bool, from: usize, to: usize)
    requires { MoveRoom from to run.old other.old }
    ensures { MovesGlyph positions from to run.old other.old run.new other.new }
{
    if from == to {
        return;
    }
    let g = records::glyphs::get(run, from);
    records::glyphs::put(run, to, g);
    move_position(other, positions, from, to);
}

// Of a whole run of len glyphs, those with the key are deleted, from the left. What is left, at the front. `positions`, and no phase: it is asked
// once, and not of each glyph.
fn sift(
    run: &mut [u32],
    other: &mut [u32],
    positions: bool,
    keyed: Keyed,
    limits: Limits,
    value: u32,
) -> Kept
    requires way { keyed.way.merges ≡ clusters_merge (read_level keyed.way.level) }
    requires room { RunRoom keyed.len run.old other.old }
    ensures { Sifts keyed.key.slot keyed.key.mask value positions keyed.way.level keyed.way.wants keyed.len limits result run.old other.old run.new other.new }
{
    let mut left = limits;
    let mut out_len = 0;
    for idx in 0..keyed.len {
        if records::glyphs::key_at(run, idx, keyed.key) == value {
            let lists = Lists {
                idx,
                len: keyed.len,
                out_len,
                separate: false,
            };
            let merged = deleting::keep_cluster(run, other, lists, keyed.way);
            left = merge_acts::merge_limits(left, merged, 2);
        } else {
            move_glyph(run, other, positions, idx, out_len);
            out_len += 1;
        }
    }
    Kept {
        len: out_len,
        limits: left,
    }
}

impl Outcome for Kept {
    ghost amends = { λ k v. kept_with k v };

    fn amend(self, v: &mut Verdict) {
        v.len = self.len;
        v.limits = self.limits;
    }
}

// 21
pub fn delete_glyphs_inplace(
    b: Buffer,
    first: &mut [u32],
    second: &mut [u32],
    slot: u32,
    mask: u32,
    value: u32,
) -> Reply
    ensures { Meets (λ capacity a. delete_glyphs_inplace slot mask value a) b first.old second.old result first.new second.new }
{
    let positions = state::have_positions(b.phase);
    let keyed = ways::keyed_of(b, merges::clusters_merge(b.level), Key { slot, mask });
    let decision = whole::keyed_verdict(b, first, second, slot);
    swapping::carry_out(
        b,
        decision,
        first,
        second,
        move |run, other| sift(run, other, positions, keyed, b.limits, value),
    )
}
