// The reader: one command from a byte string at a place, as an order. Bytes and place stay apart: a command is read at one place, once.
ghost use Rattle.std.specs.Prelude.{◌≡◌, ◌+◌, ◌*◌, ◌≤◌, length};
ghost use Rattle.commands.specs.declared.Operands.TheVariants.{Words, Listed};
ghost use Rattle.commands.specs.{Calls.form_of, Reading.operands_of, inner.Orders.operand_at, inner.Orders.order_at, inner.Orders.ReadsForm, Reading.Reads};

use super::Operands::{self, Listed, Words};
use super::Order;
use records::bytes;

// What follows a command byte, if it is one.
#[tactic(auto, unfolding(crate::specs::Calls::forms, crate::specs::Reading::operands_of))]
fn operands_of(byte: u8) -> Option<Operands>
    ensures { result ≡ operands_of (form_of byte) }
{
    // By the bytes, as document 01 lists them: they are the format, and an enum between would say this table twice.
    match byte {
        0x00 => Some(Words(2)),
        0x01 => Some(Words(2)),
        0x02 => Some(Words(1)),
        0x03 => Some(Words(0)),
        0x04 => Some(Words(0)),
        0x05 => Some(Words(0)),
        0x06 => Some(Words(5)),
        0x07 => Some(Words(0)),
        0x08 => Some(Words(1)),
        0x09 => Some(Words(0)),
        0x0A => Some(Words(0)),
        0x0B => Some(Words(1)),
        0x0C => Some(Words(5)),
        0x0D => Some(Words(1)),
        0x0E => Some(Listed),
        0x0F => Some(Words(0)),
        0x10 => Some(Words(1)),
        0x11 => Some(Words(2)),
        0x12 => Some(Words(2)),
        0x13 => Some(Words(2)),
        0x14 => Some(Words(2)),
        0x15 => Some(Words(2)),
        0x16 => Some(Words(2)),
        0x17 => Some(Words(2)),
        0x18 => Some(Words(2)),
        0x19 => Some(Words(2)),
        0x1A => Some(Words(4)),
        0x1B => Some(Words(0)),
        0x1C => Some(Words(2)),
        0x1D => Some(Words(0)),
        0x1E => Some(Words(2)),
        0x1F => Some(Words(0)),
        0x20 => Some(Words(4)),
        0x21 => Some(Words(3)),
        0x22 => Some(Words(2)),
        0x23 => Some(Words(0)),
        0x24 => Some(Words(0)),
        0x25 => Some(Words(0)),
        0x26 => Some(Words(0)),
        _ => None,
    }
}

// Operand i of n.
#[tactic(auto, using(crate::proofs::Readings::operand_laws))]
fn operand(script: &[u8], from: usize, n: usize, i: usize) -> u32
    requires { from + 4 * n ≤ length script.now }
    ensures { result ≡ operand_at script.now from n i }
{
    if i < n {
        return bytes::word(script, from + 4 * i);
    }
    0
}

// The order of n operands, and m glyph numbers after them.
#[tactic(auto, using(crate::proofs::Readings::order_made))]
fn order(script: &[u8], byte: u8, from: usize, n: usize, m: usize) -> Order
    requires { from + 4 * n + 4 * m ≤ length script.now }
    ensures { result ≡ order_at script.now byte from n m }
{
    let a = operand(script, from, n, 0);
    let b = operand(script, from, n, 1);
    let c = operand(script, from, n, 2);
    let d = operand(script, from, n, 3);
    let e = operand(script, from, n, 4);
    let numbers = from + 4 * n;
    let next = numbers + 4 * m;
    Order {
        byte,
        a,
        b,
        c,
        d,
        e,
        numbers,
        next,
    }
}

// So many operands, and nothing after them.
#[tactic(auto, using(crate::proofs::Readings::word_forms))]
fn read_words(script: &[u8], byte: u8, from: usize, n: usize) -> Option<Order>
    requires { (from ≤ length script.now) × (operands_of (form_of byte) ≡ Some (Words n)) }
    ensures { ReadsForm script.now byte from result }
{
    if script.len() - from < 4 * n {
        return None;
    }
    Some(order(script, byte, from, n, 0))
}

// Two operands, and as many glyph numbers as the second says.
#[tactic(auto, using(crate::proofs::Readings::listed_forms))]
fn read_listed(script: &[u8], byte: u8, from: usize) -> Option<Order>
    requires { (from ≤ length script.now) × (operands_of (form_of byte) ≡ Some Listed) }
    ensures { ReadsForm script.now byte from result }
{
    let left = script.len() - from;
    if left < 8 {
        return None;
    }
    let m = bytes::word(script, from + 4) as usize;
    if left - 8 < 4 * m {
        return None;
    }
    Some(order(script, byte, from, 2, m))
}

// The command at a place; past the end there is none.
#[tactic(auto, using(crate::proofs::Readings::commands))]
pub fn read_command(script: &[u8], at: usize) -> Option<Order>
    ensures { Reads script.now at result }
{
    let byte = *script.get(at)?;
    match operands_of(byte)? {
        Words(n) => read_words(script, byte, at + 1, n),
        Listed => read_listed(script, byte, at + 1),
    }
}
