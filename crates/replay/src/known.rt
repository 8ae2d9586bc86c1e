// What harfrust has of a line. What document 02 added is cut off, or all of a line is left out.
ghost use Rattle.std.specs.Prelude.{◌≡◌};
ghost use Rattle.replay.specs.Lines.{space_at, first_fields, known, theirs};

// How many fields of a line harfrust has. Of a line that it lacks it has none, which is a count as well: `cut` gives no byte then.
#[tactic(auto, using(crate::proofs::KnownLaws::known_sum, crate::proofs::KnownLaws::known_other))]
fn known(line: &[u8]) -> usize
    ensures { result ≡ known line.now }
{
    if line.starts_with(b"s") {
        return 0;
    }
    6
}

// Where the space with n spaces before it stands, or the line's end.
fn space_at(line: &[u8], n: usize) -> usize
    ensures { result ≡ space_at n line.now }
{
    let mut spaces = line.iter().enumerate().filter(|(_, byte)| **byte == b' ');
    // By `map_or` the goal stays open: its place comes through a closure, and the laws are about the item found.
    match spaces.nth(n) {
        Some((i, _)) => i,
        None => line.len(),
    }
}

// The first n fields of a line, which ends behind them.
#[tactic(auto, using(crate::proofs::KnownLaws::cut_none, crate::proofs::KnownLaws::cut_short, crate::proofs::KnownLaws::cut_whole))]
fn cut(line: &mut [u8], n: usize) -> &[u8]
    ensures { result.now ≡ first_fields n line.old }
{
    if n == 0 {
        return &[];
    }
    let at = space_at(line, n - 1);
    if at < line.len() {
        line[at] = b'\n';
        return &line[..at + 1];
    }
    line
}

// What harfrust has of a line, nothing where it lacks it.
#[tactic(auto, using(crate::proofs::KnownLaws::cut_theirs))]
pub(crate) fn theirs(line: &mut [u8]) -> &[u8]
    ensures { result.now ≡ theirs line.old }
{
    let n = known(line);
    cut(line, n)
}
