// The step: one command of a byte string on state and slices.
ghost use Rattle.commands.specs.Runs.{Steps};

use super::{Step, calls, reader};
use lists::Buffer;
use records::Refusal;

// The command at a place.
#[tactic(auto, using(crate::proofs::StepLaws::command_known))]
pub fn step(b: Buffer, first: &mut [u32], second: &mut [u32], script: &[u8], at: usize) -> Step
    ensures { Steps script.now at b first.old second.old result first.new second.new }
{
    match reader::read_command(script, at) {
        Some(o) => {
            let next = o.next;
            let reply = calls::call(b, first, second, script, o);
            Step { reply, next }
        }
        None => {
            let next = script.len();
            let reply = lists::state::reply(b, Err(Refusal::Unreadable));
            Step { reply, next }
        }
    }
}
