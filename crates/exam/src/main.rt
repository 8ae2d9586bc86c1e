// The exam program: commands from standard input on a buffer of 2,048 glyphs, level and wants 0. Prints the answer to
// each, then what the buffer shows, then its totals. At most 262,144 bytes are taken; of a longer input nothing is run, and
// a line says so. It allocates nothing; what it holds, about 676 KiB, stands on its stack.

#![tactic(auto)]

ghost use Rattle.std.specs.Prelude.{◌≡◌, length};
ghost use Rattle.records.specs.Counters.{words_for};
ghost use Rattle.commands.specs.Lines.{report};
ghost use Rattle.commands.specs.inner.Programs.{Holds};
ghost use Rattle.commands.specs.Texts.{exam_run, last_account};

use commands::texts;
use printing::TEXT;

// The answers to a string's commands, printed, and then the report of what they leave, at the start of a room. Gives its length.
// Not one function that is given `texts::report` or `texts::layout_record`: each program's promise stands at a function of its own, which
// would then only call the shared one.
fn answer_all(first: &mut [u32], second: &mut [u32], script: &[u8], out: &mut [u8]) -> usize
    requires { (words_for 2048 ≡ length first.old) × (words_for 2048 ≡ length second.old) × (TEXT ≡ length out.old) }
    ensures { Holds (report (last_account (exam_run 2048 script.now))) result out.new }
{
    let ran = printing::play_fresh(first, second, script, out);
    texts::report(out, ran.reply.buffer, first, second)
}

fn main() {
    printing::program(answer_all);
}
