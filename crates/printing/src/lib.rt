// What the programs share. They read, call and write: every text that they write, but the line about a longer input, is made by a
// function of commands, and said by its contract. That its bytes go to standard output, once each and in order, is no part of a promise.

#![tactic(auto)]

ghost use Rattle.std.specs.Prelude.{◌≡◌, ◌≤◌, length, ltb};
ghost use Rattle.records.specs.Counters.{words_for};
ghost use Rattle.commands.specs.Texts.{longest};
ghost use Rattle.commands.specs.inner.Programs.{RunsFresh};
ghost use Rattle.commands.specs.Runs.{Runs};

use commands::{Played, Ran, playing, runs};
use lists::Buffer;

// The longest input that is taken.
const INPUT: usize = 262144;

// Room for it, and for one byte more.
pub fn script_room() -> [u8; 262145]
    ensures { 262145 ≡ length result }
{
    [0; 262145]
}

// Slices for 2,048 glyphs. They are arrays of the program, lent as slices: a type of the array would stand in every signature in place of one fact.
const WORDS: usize = 2048 * records::words::WORDS;

// 4,098 longest lines: the lines `end` and `sum`, and two for each glyph that has room.
pub const TEXT: usize = 331938;

// The rooms are functions: written in `program` itself, the lengths of two are not seen where they are lent.
#[tactic(auto, unfolding(records::specs::Counters::words_for))]
pub fn words() -> [u32; WORDS]
    ensures { words_for 2048 ≡ length result }
{
    [0; WORDS]
}

pub fn text_room() -> [u8; TEXT]
    ensures { 331938 ≡ length result }
{
    [0; TEXT]
}

// Whether so many bytes are more than are taken.
pub fn is_too_long(n: usize) -> bool
    ensures { result ≡ ltb 262144 n }
{
    INPUT < n
}

// The line that stands for everything else then.
pub fn print_too_long() {
    io::write_all(1, b"input longer than 262144 bytes: nothing was run\n");
}

// The first n bytes to standard output. n is what the text needs, and may be more than the room has: nothing is printed then.
pub fn print(out: &[u8], n: usize) {
    if let Some(text) = out.get(..n) {
        io::write_all(1, text);
    }
}

// All commands of a string, part by part, the lines of each printed: what `commands::runs::run` leaves, this leaves.
fn play(b: Buffer, first: &mut [u32], second: &mut [u32], script: &[u8], out: &mut [u8]) -> Ran
    requires { longest ≤ length out.old }
    ensures { Runs script.now b first.old second.old result first.new second.new }
{
    let reply = lists::state::reply(b, Ok(None));
    let mut last = Played {
        reply,
        next: 0,
        written: 0,
        commands: 0,
    };
    let mut commands = 0;
    // Where the next part begins is what the last one says, so no range goes over them.
    while last.next < script.len() {
        last = playing::play(last.reply.buffer, first, second, script, last.next, out);
        commands += last.commands;
        print(out, last.written);
    }
    Ran {
        reply: last.reply,
        commands,
    }
}

// From the first buffer, level and wants 0: the last outcome and the number of outcomes of the account's own run.
pub fn play_fresh(first: &mut [u32], second: &mut [u32], script: &[u8], out: &mut [u8]) -> Ran
    requires words_for_value { (words_for 2048 ≡ length first.old) × (words_for 2048 ≡ length second.old) }
    requires longest_in_bounds { longest ≤ length out.old }
    ensures { RunsFresh 2048 script.now result first.new second.new }
{
    let reply = runs::begin(0, 0);
    play(reply.buffer, first, second, script, out)
}

// A whole program: what answers the commands of standard input prints them as it goes, and gives the length of the text that it
// leaves at the start of the last room. At most 262,144 bytes are taken; of a longer input nothing is run, and a line says so.
// It gives nothing back, and its rooms are its own: standard output is all that it changes, so what is promised is said of `answer_all`.
pub fn program<A: Fn(&mut [u32], &mut [u32], &[u8], &mut [u8]) -> usize>(answer_all: A)
    requires { (first second : _) (script : _) (out : _) → words_for 2048 ≡ length first.now → words_for 2048 ≡ length second.now → TEXT ≡ length out.now → A.pre answer_all first second script out }
{
    let mut script = script_room();
    let n = io::read_full(0, &mut script);
    if is_too_long(n) {
        print_too_long();
        return;
    }
    let mut first = words();
    let mut second = words();
    let mut out = text_room();
    let m = answer_all(&mut first, &mut second, &script[..n], &mut out);
    print(&out, m);
}
