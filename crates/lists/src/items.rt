// What a buffer shows, one thing after the other.
ghost use Rattle.std.specs.Prelude.{◌≡◌, cond, [], map, ◌+◌, ◌≤◌, length, slice_get, take, None};
ghost use Rattle.records.specs.View.{positions_in};
ghost use Rattle.lists.specs.declared.Item.TheVariants.{OfPosition};
ghost use Rattle.lists.specs.Account.{positions_phase};
ghost use Rattle.lists.specs.{Contract.account_of, Contract.account, Contract.sound, inner.Held.Held, Contract.gone_of};
ghost use Rattle.lists.specs.Contract.{items};

use super::{Buffer, Item, state, swapping};

// How many there are.
#[tactic(auto, using(crate::proofs::ItemLaws::showing))]
pub fn item_count(b: Buffer, first: &[u32], second: &[u32]) -> usize
    ensures { result ≡ cond (sound b first.now second.now) (length (items (account b first.now second.now))) 0 }
{
    if state::is_sound(b, first, second) {
        let n = b.len.0 - state::gone(b);
        if state::have_positions(b.phase) {
            return n + n;
        }
        return b.out_len.0 + n;
    }
    0
}

// The k-th position.
#[tactic(auto, using(crate::proofs::ItemLaws::placing))]
fn position_item(b: Buffer, other: &[u32], k: usize) -> Option<Item>
    requires { b.len.0 ≤ length (positions_in other.now) }
    ensures { result ≡ slice_get (map OfPosition (cond (positions_phase b.phase) (take b.len.0 (positions_in other.now)) [])) k }
{
    if state::have_positions(b.phase) && k < b.len.0 {
        return Some(Item::OfPosition(records::positions::get(other, k)));
    }
    None
}

// The k-th of those after the output.
#[tactic(auto, using(crate::proofs::Accounts::places_in))]
fn input_item(b: Buffer, run: &[u32], other: &[u32], k: usize) -> Option<Item>
    requires { Held b run.now other.now }
    ensures { result ≡ slice_get (items (account_of b run.now other.now)) (b.out_len.0 + k) }
{
    let from = state::gone(b);
    let n = b.len.0 - from;
    if n <= k {
        return position_item(b, other, k - n);
    }
    let g = records::glyphs::get(run, from + k);
    if from + k < b.idx.0 {
        return Some(Item::OfPassed(g));
    }
    Some(Item::OfRest(g))
}

// Of the slice that holds the run, and the other.
#[tactic(auto, using(crate::proofs::ItemLaws::showing))]
fn item_in(b: Buffer, run: &[u32], other: &[u32], k: usize) -> Option<Item>
    requires { Held b run.now other.now }
    ensures { result ≡ slice_get (items (account_of b run.now other.now)) k }
{
    let n = b.out_len.0;
    if n <= k {
        return input_item(b, run, other, k - n);
    }
    let output = swapping::one_of(run, other, b.have_separate_output);
    Some(Item::OfDone(records::glyphs::get(output, k)))
}

// The k-th of them, counted from 0; past the last there is none.
#[tactic(auto, using(crate::proofs::ItemLaws::showing, crate::proofs::SoundLaws::soundness))]
pub fn item(b: Buffer, first: &[u32], second: &[u32], k: usize) -> Option<Item>
    ensures { result ≡ cond (sound b first.now second.now) (slice_get (items (account b first.now second.now)) k) None }
{
    if state::is_sound(b, first, second) {
        let run = swapping::one_of(first, second, b.swapped);
        let other = swapping::one_of(second, first, b.swapped);
        return item_in(b, run, other, k);
    }
    None
}
