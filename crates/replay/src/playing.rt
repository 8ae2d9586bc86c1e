// Runs the lists.
use super::Tally;
use super::reading::{Input, Stored, Unreadable};
use commands::{Step, steps};

// A list's commands, and what the buffer shows after them.
#[tactic(auto, using(commands::proofs::MadeLaws::running))]
fn play(tally: &mut Tally, first: &mut [u32], second: &mut [u32], list: Stored<'_>) {
    let reply = lists::Buffer::new(0, 0);
    let mut last = Step { reply, next: 0 };
    // Where the next command begins is what a step says, so no range goes over them.
    while last.next < list.script.len() {
        let at = last.next;
        last = steps::step(last.reply.buffer, first, second, list.script, at);
        tally.answer(list.script[at], last.reply.answer, list.text);
    }
    tally.report(last.reply.buffer, first, second, list.text);
    tally.end(list.text);
}

// The part of a slice that has room for so many glyphs.
#[tactic(auto, using(crate::proofs::Lendings::part_long))]
fn part(words: &mut [u32], capacity: usize) -> Result<&mut [u32], Unreadable> {
    if records::glyphs::capacity(words) < capacity {
        return Err(Unreadable::TooLarge);
    }
    let end = records::words::words_for(capacity);
    Ok(&mut words[..end])
}

// Up to a million lists. The rooms stay apart: each is lent for a time of its own.
pub(crate) fn all(
    tally: &mut Tally,
    input: &mut Input,
    first: &mut [u32],
    second: &mut [u32],
    script: &mut [u8],
    text: &mut [u8],
) -> Result<(), Unreadable> {
    for _ in 0..1000000 {
        let Some(capacity) = input.start()? else {
            return Ok(());
        };
        tally.start();
        let list = input.list(script, text)?;
        play(tally, part(first, capacity)?, part(second, capacity)?, list);
    }
    Ok(())
}
