// Here one of the two lent slices is picked, acts are made on the one that holds the run and on the other, and a call that acts is replied to.
ghost use Rattle.std.specs.Prelude.{◌≡◌, cond, true, Ok};
ghost use Rattle.lists.specs.declared.Verdict.{Verdict};
ghost use Rattle.lists.specs.inner.Verdicts.{Sided, acts_of, limiting_verdict};
ghost use Rattle.lists.specs.inner.Swapping.{MayAct, ActedOn, CarriedOut};

use super::{Buffer, Decision, Reply, Verdict, state, verdicts};
use records::Limits;

// The first of two slices, or the second: the state says which as the call runs.
pub fn one_of<'a>(first: &'a [u32], second: &'a [u32], is_second: bool) -> &'a [u32]
    ensures { result.now ≡ cond is_second second.now first.now }
{
    if is_second { second } else { first }
}

// Two calls of one act, one for each order: a pair of `&mut` that is chosen first is not covered by the borrow checker.
pub fn act_on<R, F: FnOnce(&mut [u32], &mut [u32]) -> R>(
    first: &mut [u32],
    second: &mut [u32],
    swapped: bool,
    act: F,
) -> R
    requires { MayAct swapped F.FnOnce act first.old second.old }
    ensures { Sided swapped (ActedOn F.FnOnce act result) first.old second.old first.new second.new }
{
    if swapped {
        act(second, first)
    } else {
        act(first, second)
    }
}

// What an act gives back, and how it changes what its call comes to.
pub trait Outcome: Copy {
    ghost amends: { Self → Verdict → Verdict };

    fn amend(self, v: &mut Verdict)
        ensures { v.new ≡ amends self v.old };
}

impl Outcome for () {
    ghost amends = { λ x v. v };

    fn amend(self, v: &mut Verdict) {}
}

// What is left of the limits.
impl Outcome for Limits {
    ghost amends = { λ l v. limiting_verdict l v };

    fn amend(self, v: &mut Verdict) {
        v.limits = self;
    }
}

// The act of a verdict, where it asks for one, and the reply.
#[inline(always)]
fn carried<R: Outcome, F: FnOnce(&mut [u32], &mut [u32]) -> R>(
    b: Buffer,
    v: Verdict,
    first: &mut [u32],
    second: &mut [u32],
    act: F,
) -> Reply
    requires { v.acts ≡ true → MayAct b.swapped F.FnOnce act first.old second.old }
    ensures { CarriedOut R.amends F.FnOnce act b (Ok v) first.old second.old result first.new second.new }
{
    let mut left = v;
    if v.acts {
        act_on(first, second, b.swapped, act).amend(&mut left);
    }
    verdicts::replied(b, left)
}

// The act, where the decision asks for one, and the reply.
#[inline(always)]
pub fn carry_out<R: Outcome, F: FnOnce(&mut [u32], &mut [u32]) -> R>(
    b: Buffer,
    decision: Decision,
    first: &mut [u32],
    second: &mut [u32],
    act: F,
) -> Reply
    requires { acts_of decision ≡ true → MayAct b.swapped F.FnOnce act first.old second.old }
    ensures { CarriedOut R.amends F.FnOnce act b decision first.old second.old result first.new second.new }
{
    match decision {
        Ok(v) => carried(b, v, first, second, act),
        Err(why) => state::reply(b, Err(why)),
    }
}
