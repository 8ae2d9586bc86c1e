// The printed lines, each written into a lent slice at a place where the longest has room. Callers lend slice and place: a `Writer` is made of them.
ghost use Rattle.std.specs.Prelude.{◌≡◌, cond, List, ℕ, ◌+◌, ◌≤◌, length, leb};
ghost use Rattle.records.specs.Answers.{said};
ghost use Rattle.records.specs.View.{seen};
ghost use Rattle.lists.specs.Account.{spoiled_phase};
ghost use Rattle.commands.specs.{Lines.answer_line, Lines.glyph_line, Lines.position_line, inner.Writes.Puts, Texts.Prints, Texts.longest};

use super::Totals;
use super::writer::Writer;
use lists::{Buffer, Item, state};
use records::{Answer, GlyphInfo, Position};

// What a line is printed of, and its bytes.
pub(crate) trait Line {
    ghost bytes: { Self → List ℕ };

    fn write(&self, w: &mut Writer)
        requires { w.old.at + longest ≤ length w.old.out.now }
        ensures puts { Puts (bytes self.now) w.old w.new }
        ensures upper_bound { w.new.at ≤ w.old.at + longest };
}

// A command and what it answered: ` ok` or ` no`, and a number if any.
#[derive(Clone, Copy)]
struct Answered {
    byte: u8,
    answer: Answer,
}

impl Line for Answered {
    ghost use Rattle.records.specs.Answers.{said};
    ghost use Rattle.commands.specs.Lines.{answer_line};

    ghost bytes = { λ a. answer_line a.byte (said a.answer) };

    fn write(&self, w: &mut Writer) {
        w.put_hex(self.byte);
        match self.answer {
            Ok(None) => w.put_all(b" ok\n"),
            Ok(Some(v)) => {
                w.put_all(b" ok");
                w.put_word(v);
                w.put(b'\n');
            }
            Err(why) => {
                w.put_all(b" no");
                w.put_word(u32::from(why));
                w.put(b'\n');
            }
        }
    }
}

// A line `o`, `p` or `i`. Its kind is the line's own first byte, as specs/Lines has it.
fn write_glyph(w: &mut Writer, kind: u8, g: GlyphInfo)
    requires { w.old.at + longest ≤ length w.old.out.now }
    ensures puts { Puts (glyph_line kind (seen g)) w.old w.new }
    ensures upper_bound { w.new.at ≤ w.old.at + longest }
{
    w.put(kind);
    w.put_word(g.glyph);
    w.put_word(g.cluster);
    w.put_word(g.mask);
    w.put_word(g.var0);
    w.put_word(g.var1);
    w.put_word(g.origin);
    w.put(b'\n');
}

// A line `x`.
fn write_position(w: &mut Writer, p: Position)
    requires { w.old.at + longest ≤ length w.old.out.now }
    ensures puts { Puts (position_line p) w.old w.new }
    ensures upper_bound { w.new.at ≤ w.old.at + longest }
{
    w.put(b'x');
    w.put_signed_word(p.x_advance);
    w.put_signed_word(p.y_advance);
    w.put_signed_word(p.x_offset);
    w.put_signed_word(p.y_offset);
    w.put_word(p.var);
    w.put(b'\n');
}

// The line of one thing that a buffer shows.
impl Line for Item {
    ghost use Rattle.commands.specs.Lines.{item_line};

    ghost bytes = { item_line };

    #[tactic(auto, unfolding(crate::specs::Lines::item_line))]
    fn write(&self, w: &mut Writer) {
        match *self {
            Item::OfDone(g) => write_glyph(w, b'o', g),
            Item::OfPassed(g) => write_glyph(w, b'p', g),
            Item::OfRest(g) => write_glyph(w, b'i', g),
            Item::OfPosition(p) => write_position(w, p),
        }
    }
}

// The cursor, which a spoiled buffer does not show.
fn shown_idx(b: &Buffer) -> usize
    ensures { result ≡ cond (spoiled_phase b.now.phase) 0 b.now.idx.0 }
{
    if state::is_spoiled(b.phase) {
        return 0;
    }
    b.idx.0
}

// The line `end`.
impl Line for Buffer {
    ghost use Rattle.commands.specs.inner.Writes.{end_line_of};

    ghost bytes = { end_line_of };

    fn write(&self, w: &mut Writer) {
        w.put_all(b"end");
        w.put_count(self.len.0);
        w.put_count(shown_idx(self));
        w.put_count(self.out_len.0);
        w.put_signed_word(self.limits.max_ops);
        w.put_truth(self.limits.successful);
        w.put(b'\n');
    }
}

// The line `sum`.
impl Line for Totals {
    ghost use Rattle.commands.specs.Lines.{sum_line};

    ghost bytes = { sum_line };

    fn write(&self, w: &mut Writer) {
        w.put_all(b"sum");
        w.put_count(self.lines);
        w.put_count(self.groups);
        w.put_count(self.marked);
        w.put(b'\n');
    }
}

// The longest line's bytes.
const LONGEST: usize = 81;

// Whether the longest line has room from a place on.
pub(crate) fn has_room(len: usize, at: usize) -> bool
    ensures { result ≡ leb (at + longest) len }
{
    at <= len && LONGEST <= len - at
}

// The place after a line, or the same where it has no room.
pub(crate) fn print<L: Line>(out: &mut [u8], at: usize, line: &L) -> usize
    ensures { Prints (L.bytes line.now) out.old at result out.new }
{
    if !has_room(out.len(), at) {
        return at;
    }
    let mut w = Writer::new(out, at);
    line.write(&mut w);
    w.at
}

// The line of a command and what it answered.
pub fn answer_line(out: &mut [u8], at: usize, byte: u8, answer: Answer) -> usize
    ensures { Prints (answer_line byte (said answer)) out.old at result out.new }
{
    print(out, at, &Answered { byte, answer })
}
