// Replays stored lists of commands from standard input and compares every line, as far as harfrust has it, with what
// harfrust printed for them; in lists that set level 3 with wants bit 2, which harfrust lacks, with what a second program did
// (compare/README.md). A stored list is a capacity, the commands with their length before them, and the text with its length
// before it; numbers are four bytes, low byte first. Every list starts from a fresh buffer, level and wants 0.

#![tactic(auto)]

ghost use Rattle.std.specs.Prelude.{◌≡◌};
ghost use Rattle.replay.specs.Lines.{one_more};

use reading::Input;

mod comparing;
mod known;
mod playing;
mod reading;
mod rooms;
mod telling;

// What was counted. `line` and `at` are where the comparison stands in the text of a list.
#[derive(Clone, Copy, Default)]
struct Tally {
    lists: u64,
    commands: u64,
    lines: u64,
    differences: u64,
    line: u64,
    at: usize,
}

// No run counts to the end of 64 bits.
fn more(n: u64) -> u64
    ensures { result ≡ one_more n }
{
    n.wrapping_add(1)
}

fn main() {
    let mut first = rooms::words();
    let mut second = rooms::words();
    let mut script = rooms::script();
    let mut text = rooms::text();
    let mut tally = Tally::default();
    let mut input = Input::new();
    let read = playing::all(
        &mut tally,
        &mut input,
        &mut first,
        &mut second,
        &mut script,
        &mut text,
    );
    if let Err(why) = read {
        telling::unreadable(tally.lists, why);
    }
    telling::counts(&tally, input.hash);
}
