// What the program holds, on its stack. The sizes say which lists are taken, so each is promised of a function.
ghost use Rattle.std.specs.Prelude.{◌≡◌, length};
ghost use Rattle.records.specs.Counters.{words_for};

// 65,537 glyphs, one more than `enter` allows a short run.
const WORDS: usize = 65537 * records::words::WORDS;

#[tactic(auto, unfolding(records::specs::Counters::words_for))]
pub(crate) fn words() -> [u32; WORDS]
    ensures { words_for 65537 ≡ length result }
{
    [0; WORDS]
}

// The commands of a list.
pub(crate) fn script() -> [u8; 16384]
    ensures { 16384 ≡ length result }
{
    [0; 16384]
}

// The text of a list.
pub(crate) fn text() -> [u8; 262144]
    ensures { 262144 ≡ length result }
{
    [0; 262144]
}
