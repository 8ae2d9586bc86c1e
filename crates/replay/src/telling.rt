// What is printed.
use super::Tally;
use super::reading::Unreadable;
use std::fmt;
use std::fmt::Write;

// Standard output, by `io` as its input is. Not driving's `Stdout`: that one ends the run where bytes are not taken; this goes on and counts.
#[derive(Drop)]
struct Output;

impl fmt::Write for Output {
    fn write_str(&mut self, s: &str) -> fmt::Result {
        io::write_all(1, s.as_bytes());
        Ok(())
    }
}

impl fmt::Display for Unreadable {
    fn fmt<W: fmt::Write>(&self, f: &mut fmt::Formatter<W>) -> fmt::Result {
        match self {
            Unreadable::CutOff => write!(f, "is cut off"),
            Unreadable::TooLong => write!(f, "is too long"),
            Unreadable::TooLarge => write!(f, "has too large a capacity"),
        }
    }
}

impl fmt::Display for Tally {
    fn fmt<W: fmt::Write>(&self, f: &mut fmt::Formatter<W>) -> fmt::Result {
        writeln!(f, "lists {}", self.lists)?;
        writeln!(f, "commands {}", self.commands)?;
        writeln!(f, "lines {}", self.lines)?;
        write!(f, "differences {}", self.differences)
    }
}

// A line that is not the stored one, or is not stored.
pub(crate) fn difference(t: &Tally) {
    let _ = writeln!(Output, "list {} line {} differs", t.lists, t.line);
}

// A list that cannot be read, and why.
pub(crate) fn unreadable(list: u64, why: Unreadable) {
    let _ = writeln!(Output, "list {list} {why}");
}

pub(crate) fn counts(t: &Tally, hash: u32) {
    let _ = writeln!(Output, "{t}\nhash {hash}");
}
