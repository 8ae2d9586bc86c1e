// The numbers of the line `sum`, counted in one pass over what a buffer shows.
ghost use Rattle.std.specs.Prelude.{◌≡◌, true, map, ◌+◌, ◌<◌, ◌^◌};
ghost use Rattle.lists.specs.Contract.{items};
ghost use Rattle.lists.specs.Contract.{account, sound};
ghost use Rattle.commands.specs.Totals.{number_of};
ghost use Rattle.commands.specs.Lines.{decimal, item_line};
ghost use Rattle.commands.specs.Totals.{read_line, plus, starts, counted, read_totals};

use super::{Entry, Totals};
use lists::{Buffer, Item};

// A word that is printed and read again is itself.
#[tactic(auto, using(crate::proofs::FieldLaws::number_decimal))]
fn entry_of(kind: u8, cluster: u32, mask: u32) -> Entry
    ensures { result ≡ record { kind = kind; cluster = number_of (decimal cluster); mask = number_of (decimal mask) } }
{
    Entry {
        kind,
        cluster,
        mask,
    }
}

// What a reader takes from the line of one thing that a buffer shows, if it is a glyph's.
#[tactic(auto, using(crate::proofs::TotalLaws::entered))]
fn entry(item: Item) -> Option<Entry>
    ensures { result ≡ read_line (item_line item) }
{
    match item {
        Item::OfDone(g) => Some(entry_of(b'o', g.cluster, g.mask)),
        Item::OfPassed(g) => Some(entry_of(b'p', g.cluster, g.mask)),
        Item::OfRest(g) => Some(entry_of(b'i', g.cluster, g.mask)),
        Item::OfPosition(_) => None,
    }
}

// How many groups a line starts: 1 or 0.
#[tactic(auto, unfolding(crate::specs::Totals::starts))]
fn started(above: Option<Entry>, line: Entry) -> usize
    ensures { result ≡ starts above line }
{
    usize::from(above.is_none_or(|e| e.kind != line.kind || e.cluster != line.cluster))
}

// With one line more.
#[tactic(auto, using(crate::proofs::TotalLaws::starts_most), unfolding(crate::specs::Totals::plus, crate::specs::Totals::counted))]
fn count(t: Totals, above: Option<Entry>, line: Option<Entry>) -> Totals
    requires { t.lines + t.groups + t.marked < 2 ^ 32 }
    ensures { result ≡ plus t (counted above line) }
{
    match line {
        Some(e) => {
            let bit = (e.mask % 2) as usize;
            Totals {
                lines: t.lines + 1,
                groups: t.groups + started(above, e),
                marked: t.marked + bit,
            }
        }
        None => t,
    }
}

// What a reader counts from the lines of all that a buffer shows.
#[tactic(auto, using(crate::proofs::TotalLaws::counting))]
pub(crate) fn totals(b: Buffer, first: &[u32], second: &[u32]) -> Totals
    requires { sound b first.now second.now ≡ true }
    ensures { result ≡ read_totals (map item_line (items (account b first.now second.now))) }
{
    let n = lists::items::item_count(b, first, second);
    let mut t = Totals::default();
    let mut above = None;
    for k in 0..n {
        let line = lists::items::item(b, first, second, k).and_then(entry);
        t = count(t, above, line);
        above = line;
    }
    t
}
