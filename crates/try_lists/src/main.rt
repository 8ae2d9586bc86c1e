// Drives the calls of `lists` over a run of three glyphs, and prints what each answers and leaves.

#![tactic(auto)]

ghost use Rattle.std.specs.Prelude.{◌≡◌, ◌∷◌, []};
ghost use Rattle.records.specs.declared.Refusal.TheVariants.{WrongPhase, OutOfRange};
ghost use Rattle.driving.specs.Starts.{started};

use driving::answers::Printed;
use driving::output::Stdout;
use driving::{glyphs, starts};
use lists::{Buffer, Reply, cursor};
use records::{Answer, DonePlace, GlyphInfo, Refusal};
use std::fmt;
use std::fmt::Write;

// Slices for six glyphs, and one for five.
const WORDS: usize = 6 * records::words::WORDS;

const SHORT: usize = 5 * records::words::WORDS;

// A plain run of three glyphs, with room for six.
fn start() -> Buffer
    ensures { result ≡ started 3 6 0 }
{
    starts::start(3, 6, 0)
}

// The answer, then len, idx, out_len, max_ops.
fn shown(r: Reply) -> Result<Buffer, fmt::Error> {
    let b = r.buffer;
    let ops = b.limits.max_ops;
    let answer = Printed(r.answer);
    writeln!(
        Stdout,
        "{answer} | {} {} {} {ops}",
        b.len.0, b.idx.0, b.out_len.0
    )?;
    Ok(b)
}

// The glyphs of a slice, all of their words.
#[tactic(auto, using(driving::proofs::Slices::in_slice))]
fn print_glyphs(ws: &[u32]) -> fmt::Result {
    for i in 0..records::glyphs::capacity(ws) {
        let g = records::glyphs::get(ws, i);
        write!(Stdout, " {} {} {}", g.glyph, g.mask, g.cluster)?;
        write!(Stdout, " {} {} {}", g.var0, g.var1, g.origin)?;
    }
    writeln!(Stdout)
}

fn glyph(number: u32) -> GlyphInfo {
    GlyphInfo {
        origin: number % 8,
        ..records::glyphs::blank(number, number % 32)
    }
}

// The cursor with output in the run, and back.
fn within(b: Buffer, first: &mut [u32], second: &mut [u32]) -> Result<Buffer, fmt::Error> {
    let b = shown(cursor::clear_output(b, first, second))?;
    let b = shown(cursor::next_glyph(b, first, second))?;
    let b = shown(cursor::skip_glyph(b, first, second))?;
    print_glyphs(cursor::out_info(b, first, second))?;
    let b = shown(cursor::next_glyphs(b, first, second, 2))?;
    let b = shown(cursor::move_to(b, first, second, 2))?;
    print_glyphs(cursor::out_info(b, first, second))?;
    let b = shown(cursor::move_to(b, first, second, 0))?;
    let b = shown(cursor::move_to(b, first, second, 9))?;
    shown(cursor::sync(b, first, second))
}

// Output that lies apart: three glyphs are written there, none of the input is gone.
fn apart(b: Buffer) -> Buffer {
    Buffer {
        out_len: DonePlace(3),
        have_separate_output: true,
        ..b
    }
}

fn across(b: Buffer, first: &mut [u32], second: &mut [u32]) -> Result<Buffer, fmt::Error> {
    let b = apart(shown(cursor::clear_output(b, first, second))?);
    print_glyphs(cursor::out_info(b, first, second))?;
    let b = shown(cursor::move_to(b, first, second, 1))?;
    print_glyphs(cursor::out_info(b, first, second))?;
    let b = shown(cursor::move_to(b, first, second, 2))?;
    let b = shown(cursor::sync(b, first, second))?;
    shown(cursor::sync(b, first, second))
}

// Counters, and the phases without output.
fn plain(b: Buffer, first: &mut [u32], second: &mut [u32]) -> Result<Buffer, fmt::Error> {
    let b = shown(cursor::enter(b, first, second))?;
    let b = shown(cursor::allocate_lig_id(b, first, second))?;
    let b = shown(cursor::leave(b, first, second))?;
    let b = shown(cursor::next_glyph(b, first, second))?;
    let b = shown(cursor::clear_positions(b, first, second))?;
    let b = shown(cursor::skip_glyph(b, first, second))?;
    let b = shown(cursor::move_to(b, first, second, 0))?;
    let b = shown(cursor::fresh(b, first, second, 5, 8))?;
    shown(cursor::fresh(b, first, second, 5, 7))
}

// The cursor over the run: too far, there, back, and `sync` once more than there is output.
fn answers() -> [Answer; 5]
    ensures { result ≡ Err OutOfRange ∷ Ok None ∷ Ok (Some 1) ∷ Ok (Some 1) ∷ Err WrongPhase ∷ [] }
{
    let mut first = [0u32; WORDS];
    let mut second = [0u32; WORDS];
    let opened = cursor::clear_output(start(), &first, &second);
    let far = cursor::next_glyphs(opened.buffer, &mut first, &mut second, 4);
    let there = cursor::next_glyphs(far.buffer, &mut first, &mut second, 2);
    let back = cursor::move_to(there.buffer, &mut first, &mut second, 1);
    let synced = cursor::sync(back.buffer, &mut first, &mut second);
    let again = cursor::sync(synced.buffer, &mut first, &mut second);
    [
        far.answer,
        there.answer,
        back.answer,
        synced.answer,
        again.answer,
    ]
}

// Each answer is proved before the program runs: an `expect` is a fact of the contracts.
fn expected() {
    let [far, there, back, synced, again] = answers();
    check::expect(far == Err(Refusal::OutOfRange));
    check::expect(there == Ok(None));
    check::expect(back == Ok(Some(1)));
    check::expect(synced == Ok(Some(1)));
    check::expect(again == Err(Refusal::WrongPhase));
}

fn drive(first: &mut [u32], second: &mut [u32], short: &[u32]) -> fmt::Result {
    glyphs::fill(first, &[64, 65, 66].map(glyph));
    within(start(), first, second)?;
    glyphs::fill(first, &[64, 65, 66].map(glyph));
    glyphs::fill(second, &[96, 97, 98].map(glyph));
    across(start(), first, second)?;
    print_glyphs(first)?;
    print_glyphs(second)?;
    plain(start(), first, second)?;
    print_glyphs(first)?;
    print_glyphs(second)?;
    shown(cursor::enter(start(), first, short))?;
    Ok(())
}

// A line that cannot be written ends the run.
fn main() {
    expected();
    let mut first = [0u32; WORDS];
    let mut second = [7u32; WORDS];
    let short = [0u32; SHORT];
    let _ = drive(&mut first, &mut second, &short);
}
