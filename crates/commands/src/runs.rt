// The run: every command of a byte string on state and slices.
ghost use Rattle.lists.specs.Contract.{Begins};
ghost use Rattle.commands.specs.Claims.{Claims};
ghost use Rattle.commands.specs.Runs.{Runs};

use super::{Ran, Step, steps};
use lists::{Buffer, Reply};

// The first buffer, and what holds of every run that starts with it.
pub fn begin(level: u32, wants: u32) -> Reply
    ensures begins { Begins level wants result }
    ensures claims { Claims level wants result.buffer }
{
    Buffer::new(level, wants)
}

// A string's commands, one after the other, up to its end or the first refusal 6.
#[tactic(auto, using(crate::proofs::MadeLaws::running))]
pub fn run(b: Buffer, first: &mut [u32], second: &mut [u32], script: &[u8]) -> Ran
    ensures { Runs script.now b first.old second.old result first.new second.new }
{
    let reply = lists::state::reply(b, Ok(None));
    let mut last = Step { reply, next: 0 };
    let mut commands = 0;
    // Each step says where the next one starts. The label names the loop for its proof.
    'steps: while last.next < script.len() {
        last = steps::step(last.reply.buffer, first, second, script, last.next);
        commands += 1;
    }
    Ran {
        reply: last.reply,
        commands,
    }
}
