// Whole texts in a lent slice: the report of a buffer, and its layout record.
ghost use Rattle.std.specs.Prelude.{◌≡◌, ◌*◌, ◌≤◌, length};
ghost use mathlib.Core.List.{flat_map};
ghost use Rattle.commands.specs.{Lines.reported, Lines.line_of, Texts.longest, Texts.without_glyph, Texts.Fills, Texts.Wrote};
ghost use Rattle.commands.specs.{inner.Writes.Puts, inner.TextParts.report_of, inner.TextParts.Stands, inner.TextParts.Long, inner.TextParts.Room, inner.TextParts.Together};

use super::columns::{Column, Kept, Removed};
use super::reports;
use super::writer::Writer;
use lists::Buffer;
use std::ops::Range;

// What a report is of: buffer and slices, as callers lend them.
#[derive(Clone, Copy)]
struct Source<'a> {
    b: Buffer,
    first: &'a [u32],
    second: &'a [u32],
}

impl<'a> Source<'a> {
    // How many lines there are.
    fn count(&self) -> usize
        ensures { result ≡ length (report_of self.now) }
    {
        reports::report_count(self.b, self.first, self.second)
    }

    // What is shown of line k, somewhere in a room. Rooms of 128 bytes: a round size above the longest line's 81.
    fn show_line<C: Column>(&self, room: &mut [u8], k: usize) -> Range<usize>
        requires { longest ≤ length room.old }
        ensures { Stands (C.shown (line_of k (report_of self.now))) result.start result.end room.new }
    {
        let end = reports::report_line(room, 0, self.b, self.first, self.second, k);
        let start = C::start(&mut room[..end]);
        start..end
    }

    // The length of what is shown of line k.
    fn line_length<C: Column>(&self, k: usize) -> usize
        ensures { Long (C.shown (line_of k (report_of self.now))) result }
    {
        let mut room = [0u8; 128];
        let part = self.show_line::<C>(&mut room, k);
        part.end - part.start
    }

    // What is shown of line k, written.
    fn put_line<C: Column>(&self, w: &mut Writer, k: usize)
        requires { Room (C.shown (line_of k (report_of self.now))) w.old.at w.old.out.now }
        ensures { Puts (C.shown (line_of k (report_of self.now))) w.old w.new }
    {
        let mut room = [0u8; 128];
        let part = self.show_line::<C>(&mut room, k);
        w.put_all(&room[part]);
    }

    // The length of all lines.
    fn text_length<C: Column>(&self) -> usize
        ensures { Together (flat_map C.shown (report_of self.now)) (length (report_of self.now)) result }
    {
        let n = self.count();
        let mut total = 0;
        for k in 0..n {
            total += self.line_length::<C>(k);
        }
        total
    }

    // All lines, from the start on.
    #[tactic(auto, using(crate::proofs::TextLaws::filling))]
    fn put_text<C: Column>(&self, out: &mut [u8]) -> usize
        requires { Room (flat_map C.shown (report_of self.now)) 0 out.old }
        ensures { Wrote (flat_map C.shown (report_of self.now)) out.old 0 result out.new }
    {
        let n = self.count();
        let mut w = Writer::new(out, 0);
        for k in 0..n {
            self.put_line::<C>(&mut w, k);
        }
        w.at
    }

    // All lines where they have room.
    fn text<C: Column>(&self, out: &mut [u8]) -> usize
        ensures fills { Fills (flat_map C.shown (report_of self.now)) out.old result out.new }
        ensures upper_bound { result ≤ longest * length (report_of self.now) }
    {
        let n = self.text_length::<C>();
        if n <= out.len() {
            return self.put_text::<C>(out);
        }
        n
    }
}

// The line `end`, the lists, and the line `sum`. Gives the number of bytes that they need.
pub fn report(out: &mut [u8], b: Buffer, first: &[u32], second: &[u32]) -> usize
    ensures fills { Fills (flat_map (λ l. l) (reported b first.now second.now)) out.old result out.new }
    ensures upper_bound { result ≤ longest * length (reported b first.now second.now) }
{
    Source { b, first, second }.text::<Kept>(out)
}

// The same with the glyph column removed.
pub fn layout_record(out: &mut [u8], b: Buffer, first: &[u32], second: &[u32]) -> usize
    ensures fills { Fills (flat_map without_glyph (reported b first.now second.now)) out.old result out.new }
    ensures upper_bound { result ≤ longest * length (reported b first.now second.now) }
{
    Source { b, first, second }.text::<Removed>(out)
}
