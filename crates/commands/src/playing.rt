// The run in parts, each with the lines of its commands in a lent slice.
ghost use Rattle.commands.specs.{inner.TextParts.Follows, Texts.Plays};

use super::{Played, Step, lines, steps};
use lists::Buffer;

// Whether there is a command more, and room for its line.
fn has_next(next: usize, len: usize, written: usize, room: usize) -> bool
    ensures { Follows next len written room result }
{
    next < len && lines::has_room(room, written)
}

// A string's commands from a place on, up to its end or the first refusal 6, or until a longest line has no room.
#[tactic(auto, using(crate::proofs::PartLaws::playing))]
pub fn play(
    b: Buffer,
    first: &mut [u32],
    second: &mut [u32],
    script: &[u8],
    at: usize,
    out: &mut [u8],
) -> Played
    ensures { Plays script.now at b first.old second.old out.old result first.new second.new out.new }
{
    let reply = lists::state::reply(b, Ok(None));
    let mut last = Step { reply, next: at };
    let mut written = 0;
    let mut commands = 0;
    // Each command says where the next one starts. The label names the loop for its proof.
    'steps: while has_next(last.next, script.len(), written, out.len()) {
        let here = last.next;
        let byte = script[here];
        last = steps::step(last.reply.buffer, first, second, script, here);
        written = lines::answer_line(out, written, byte, last.reply.answer);
        commands += 1;
    }
    Played {
        reply: last.reply,
        next: last.next,
        written,
        commands,
    }
}
