// The calls of the list, each on a state that is lent.
ghost use Rattle.std.specs.Prelude.{◌≡◌};
ghost use Rattle.lists.specs.Contract.{Meets};
ghost use Rattle.try_commands.specs.Calls.{comes_to};

use commands::Order;
use lists::verdicts::stored;
use lists::{Buffer, cursor};
use records::{Answer, InputPlace, Refusal};

// The calls that the list has.
#[derive(Clone, Copy)]
pub(crate) enum Call {
    Push(u32, u32),
    ClearOutput,
    Sync,
    NextGlyphs(usize),
    OutputGlyph(u32),
    MoveTo(usize),
    MergeClusters(InputPlace, InputPlace),
}

// By the bytes themselves, which are the format.
impl TryFrom<Order> for Call {
    type Error = Refusal;

    fn try_from(o: Order) -> Result<Call, Refusal> {
        let byte = o.byte;
        match byte {
            0x01 => Ok(Call::Push(o.a, o.b)),
            0x03 => Ok(Call::ClearOutput),
            0x04 => Ok(Call::Sync),
            0x08 => Ok(Call::NextGlyphs(o.a as usize)),
            0x0B => Ok(Call::OutputGlyph(o.a)),
            0x10 => Ok(Call::MoveTo(o.a as usize)),
            0x11 => Ok(Call::MergeClusters(InputPlace::from(o.a), InputPlace::from(o.b))),
            _ => Err(Refusal::Unreadable),
        }
    }
}

// 01 and 03 by value, the others lent.
#[tactic(auto, unfolding(crate::specs::Calls::comes_to))]
pub(crate) fn make(b: &mut Buffer, first: &mut [u32], second: &mut [u32], call: Call) -> Answer
    ensures { Meets (comes_to call) b.old first.old second.old (record { buffer = b.new; answer = result }) first.new second.new }
{
    match call {
        Call::Push(number, cluster) => {
            stored(edits::filling::push(*b, first, second, number, cluster), b)
        }
        Call::ClearOutput => stored(cursor::clear_output(*b, first, second), b),
        Call::Sync => lists::lent::sync(b, first, second),
        Call::NextGlyphs(n) => lists::lent::next_glyphs(b, first, second, n),
        Call::OutputGlyph(number) => edits::lent::output_glyph(b, first, second, number),
        Call::MoveTo(i) => lists::lent::move_to(b, first, second, i),
        Call::MergeClusters(start, end) => {
            edits::lent::merge_clusters(b, first, second, start, end)
        }
    }
}
