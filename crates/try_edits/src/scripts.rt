// Lists of calls as text, with a space between two. A word is a call: its number in document 01, two digits of sixteen, then up to
// five operands of one digit, 0 where there are fewer. `-` is the largest operand, or an open bound. The word `.` prints the state.
use super::{calls, show};
use driving::answers::Printed;
use driving::output::Stdout;
use lists::Buffer;
use records::GlyphInfo;
use std::fmt;
use std::fmt::Write;

// A call, and its operands.
#[derive(Clone, Copy)]
pub(crate) struct Call {
    pub number: u32,
    pub v: u32,
    pub w: u32,
    pub x: u32,
    pub y: u32,
    pub z: u32,
}

// Digit by digit: a word is bytes here, and `from_str_radix` and `parse` read a text, and may take a sign.
fn number(tens: u8, ones: u8) -> Option<u32> {
    let tens = (tens as char).to_digit(16)?;
    let ones = (ones as char).to_digit(16)?;
    tens.checked_mul(16)?.checked_add(ones)
}

fn operand(c: Option<&u8>) -> u32 {
    match c {
        Some(b'-') => u32::MAX,
        Some(c) => (*c as char).to_digit(10).unwrap_or(0),
        None => 0,
    }
}

// A word that is no call ends the run.
impl TryFrom<&[u8]> for Call {
    type Error = fmt::Error;

    fn try_from(word: &[u8]) -> Result<Call, fmt::Error> {
        let [tens, ones, operands @ ..] = word else {
            return Err(fmt::Error);
        };
        Ok(Call {
            number: number(*tens, *ones).ok_or(fmt::Error)?,
            v: operand(operands.get(0)),
            w: operand(operands.get(1)),
            x: operand(operands.get(2)),
            y: operand(operands.get(3)),
            z: operand(operands.get(4)),
        })
    }
}

// What a word asks for. A call is printed with its answer.
fn step(
    b: Buffer,
    first: &mut [u32],
    second: &mut [u32],
    word: &str,
) -> Result<Buffer, fmt::Error> {
    if word == "." {
        show::state(b, first, second)?;
        return Ok(b);
    }
    let call = Call::try_from(word.as_bytes())?;
    let reply = calls::call(b, first, second, call);
    let answer = Printed(reply.answer);
    writeln!(Stdout, "{:02X} {answer}", call.number)?;
    Ok(reply.buffer)
}

pub(crate) fn run(b: Buffer, first: &mut [u32], second: &mut [u32], script: &str) -> fmt::Result {
    let mut b = b;
    for word in script.split(' ') {
        b = step(b, first, second, word)?;
    }
    Ok(())
}

// A script over a run that begins with these glyphs, in slices for seven.
pub(crate) fn play(b: Buffer, glyphs: &[GlyphInfo], script: &str) -> fmt::Result {
    let mut first = [0u32; super::SEVEN];
    let mut second = [0u32; super::SEVEN];
    driving::glyphs::fill(&mut first, glyphs);
    run(b, &mut first, &mut second, script)
}
