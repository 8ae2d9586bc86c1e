// A reader that keeps the bytes it was given, and its place in them. What reads at one place, once, takes bytes and place.
ghost use Rattle.std.specs.Prelude.{◌≡◌, leb, length};
ghost use Rattle.commands.specs.Reading.{Reads};
ghost use Rattle.commands.specs.Reading.{Takes};

use super::{Order, Script, Taken, reader};

// The command at a place, and the place after it; after one that cannot be read, the end.
#[tactic(auto, unfolding(crate::specs::Reading::place_after))]
fn take_at(script: &[u8], at: usize) -> Taken
    ensures { Takes script.now at result }
{
    let reading = reader::read_command(script, at);
    let next = reading.map_or(script.len(), |o| o.next);
    Taken { reading, next }
}

// A reader at the start of its bytes.
pub fn begin<'a>(bytes: &'a [u8]) -> Script<'a>
    ensures { (result.bytes ≡ bytes.entry) × (result.place ≡ 0) }
{
    Script { bytes, place: 0 }
}

// The command at its place.
pub fn next<'a>(s: Script<'a>) -> Option<Order>
    ensures { Reads s.entry.bytes.now s.entry.place result }
{
    reader::read_command(s.bytes, s.place)
}

// Whether nothing is left.
pub fn ended<'a>(s: Script<'a>) -> bool
    ensures { result ≡ leb (length s.entry.bytes.now) s.entry.place }
{
    s.bytes.len() <= s.place
}

// Reads the command at its place and goes past it.
pub fn take_next<'s, 'a>(s: &'s mut Script<'a>) -> Option<Order>
    ensures { (s.new.bytes ≡ s.old.bytes) × (Takes s.old.bytes.now s.old.place (record { reading = result; next = s.new.place })) }
{
    let t = take_at(s.bytes, s.place);
    s.place = t.next;
    t.reading
}
