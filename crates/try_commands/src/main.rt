// Drives the calls on a lent state and the reader that keeps its bytes: a short list of commands, whose answers and
// whose buffer at the end are printed as the exam program prints them.

#![tactic(auto)]

ghost use Rattle.std.specs.Prelude.{◌<◌, length};

use calls::Call;
use commands::{Order, Script, scripts};
use lists::Buffer;
use records::{Answer, Refusal};

// Slices for sixteen glyphs.
const WORDS: usize = 16 * records::words::WORDS;

mod calls;

// A command that the list lacks is answered as one that cannot be read.
fn carry_out(
    b: &mut Buffer,
    first: &mut [u32],
    second: &mut [u32],
    found: Option<Order>,
) -> Answer {
    let order = found.ok_or(Refusal::Unreadable)?;
    let call = Call::try_from(order)?;
    calls::make(b, first, second, call)
}

// The byte that a command's line names. By `next`, so that this call is driven too: the byte at the place is the same.
fn byte_at(reader: Script<'_>) -> u8
    requires { reader.place < length reader.bytes.now }
{
    match scripts::next(reader) {
        Some(o) => o.byte,
        None => reader.bytes[reader.place],
    }
}

fn print_answer(byte: u8, answer: Answer) {
    // a round size above the longest line's 81
    let mut out = [0u8; 128];
    let n = commands::lines::answer_line(&mut out, 0, byte, answer);
    printing::print(&out, n);
}

fn print_report(b: Buffer, first: &[u32], second: &[u32]) {
    let mut out = io::buffer();
    let n = commands::texts::report(&mut out, b, first, second);
    printing::print(&out, n);
}

// The commands of a list, each with its answer printed.
#[tactic(auto, using(crate::proofs::Onward::moves_on))]
fn play(b: &mut Buffer, first: &mut [u32], second: &mut [u32], list: &[u8]) {
    let mut reader = scripts::begin(list);
    // Each command says where the next one starts.
    while !scripts::ended(reader) {
        let byte = byte_at(reader);
        let found = scripts::take_next(&mut reader);
        let answer = carry_out(b, first, second, found);
        print_answer(byte, answer);
    }
}

// The list has one command to a line: A to D with clusters 0 to 3; 0B, before there is output; 03; 08, five and two; 0B; 11,
// before the cursor and from it on; 10, too far and back; 11; 10 forward; 08; 04, twice. Another list is a command cut off.
fn main() {
    let mut first = [0u32; WORDS];
    let mut second = [0u32; WORDS];
    let fresh = Buffer::new(0, 0);
    let mut b = fresh.buffer;
    play(
        &mut b,
        &mut first,
        &mut second,
        b"\x01A\0\0\0\0\0\0\0\
        \x01B\0\0\0\x01\0\0\0\
        \x01C\0\0\0\x02\0\0\0\
        \x01D\0\0\0\x03\0\0\0\
        \x0BX\0\0\0\
        \x03\
        \x08\x05\0\0\0\
        \x08\x02\0\0\0\
        \x0BX\0\0\0\
        \x11\x01\0\0\0\x04\0\0\0\
        \x11\x02\0\0\0\x04\0\0\0\
        \x10\x06\0\0\0\
        \x10\x01\0\0\0\
        \x11\0\0\0\0\x02\0\0\0\
        \x10\x03\0\0\0\
        \x08\x01\0\0\0\
        \x04\
        \x04",
    );
    play(&mut b, &mut first, &mut second, b"\x01E");
    print_report(b, &first, &second);
}
