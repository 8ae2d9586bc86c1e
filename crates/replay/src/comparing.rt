// Compares lines with a text. Buffer and slices are parameters as callers lend them. Rooms of 96 bytes: a round size above the longest
// line's 81.
ghost use Rattle.std.specs.Prelude.{◌≡◌};
ghost use Rattle.records.specs.Answers.{said};
ghost use Rattle.commands.specs.Lines.{answer_line, line_of, reported};
ghost use Rattle.replay.specs.Lines.{theirs, Finds, Compared, Checked, one_more};

use super::{Tally, known, more, telling};
use commands::{lines, reports};
use lists::Buffer;
use records::Answer;

// The place after a line, if the line stands at a place of the text. The place is the tally's, but no more of the tally is needed. A line
// ends with the only line end in it, so its bytes alone tell.
#[tactic(auto, using(crate::proofs::Bytes::stands_there, crate::proofs::Bytes::stands_nowhere))]
fn find(line: &[u8], text: &[u8], at: usize) -> Option<usize>
    ensures { Finds line.now text.now at result }
{
    let rest = text.get(at..)?;
    if rest.starts_with(line) {
        Some(at + line.len())
    } else {
        None
    }
}

// The place after the line of the text that a place is in.
fn line_end(text: &[u8], at: usize) -> usize {
    let end = text.iter().skip(at).position(|byte| *byte == b'\n');
    end.map_or(text.len(), |n| at + n + 1)
}

impl Tally {
    pub(crate) fn start(&mut self) {
        self.lists = more(self.lists);
        self.line = 0;
        self.at = 0;
    }

    // One difference more, and the place where the comparison goes on.
    fn differ(&mut self, at: usize)
        ensures { (self.new.lines ≡ self.old.lines) × (self.new.differences ≡ one_more self.old.differences) }
    {
        telling::difference(self);
        self.differences = more(self.differences);
        self.at = at;
    }

    fn compare(&mut self, line: &[u8], text: &[u8])
        ensures { Compared line.now text.now self.old self.new }
    {
        self.lines = more(self.lines);
        self.line = more(self.line);
        match find(line, text, self.at) {
            Some(next) => self.at = next,
            None => self.differ(line_end(text, self.at)),
        }
    }

    // Compares what harfrust has of a line, if it has anything.
    fn check(&mut self, line: &mut [u8], text: &[u8])
        ensures { Checked (theirs line.old) text.now self.old self.new }
    {
        let theirs = known::theirs(line);
        if !theirs.is_empty() {
            self.compare(theirs, text);
        }
    }

    // The line of a command.
    pub(crate) fn answer(&mut self, byte: u8, answer: Answer, text: &[u8])
        ensures { Checked (theirs (answer_line byte (said answer))) text.now self.old self.new }
    {
        let mut line = [0u8; 96];
        let n = lines::answer_line(&mut line, 0, byte, answer);
        self.commands = more(self.commands);
        self.check(&mut line[..n], text);
    }

    // A line of what a buffer shows at the end.
    fn report_line(&mut self, b: Buffer, first: &[u32], second: &[u32], k: usize, text: &[u8])
        ensures { Checked (theirs (line_of k (reported b first.now second.now))) text.now self.old self.new }
    {
        let mut line = [0u8; 96];
        let n = reports::report_line(&mut line, 0, b, first, second, k);
        self.check(&mut line[..n], text);
    }

    pub(crate) fn report(&mut self, b: Buffer, first: &[u32], second: &[u32], text: &[u8]) {
        for k in 0..reports::report_count(b, first, second) {
            self.report_line(b, first, second, k, text);
        }
    }

    // The text ends where the lines do.
    pub(crate) fn end(&mut self, text: &[u8]) {
        if self.at < text.len() {
            self.line = more(self.line);
            self.differ(text.len());
        }
    }
}
