// The words of a slice: a word of glyph i, or of position i. Where one lies, only `place_of` knows, and where a glyph ends, `glyphs::first_of`.
ghost use Rattle.std.specs.Prelude.{◌≡◌, ℕ, ◌^◌, ◌<◌, length};
ghost use Rattle.records.specs.Counters.{capacity_of, words_for};
ghost use Rattle.records.specs.{View.word_place, View.word, inner.Stores.Put};
ghost use Rattle.records.specs.inner.Words.{glyph_word, position_word};

// Words a glyph, and words a position.
pub const WORDS: usize = 6;

// The most glyphs that a lent slice may hold.
pub(crate) const MOST: usize = 1048576;

// Which of the six words, by its name.
pub(crate) trait Word: Copy {
    ghost place: { Self → ℕ };

    fn place(self) -> usize
        ensures { (result ≡ place self) × (result < 6) };
}

#[derive(Clone, Copy)]
pub(crate) enum GlyphWord {
    Glyph,
    Mask,
    Cluster,
    Var0,
    Var1,
    Origin,
}

#[derive(Clone, Copy)]
pub(crate) enum PositionWord {
    XAdvance,
    YAdvance,
    XOffset,
    YOffset,
    Var,
    Free,
}

impl Word for GlyphWord {
    ghost place = { glyph_word };

    fn place(self) -> usize {
        self as usize
    }
}

impl Word for PositionWord {
    ghost place = { position_word };

    fn place(self) -> usize {
        self as usize
    }
}

// How many words a capacity needs.
#[tactic(auto, unfolding(crate::specs::Counters::words_for))]
pub fn words_for(capacity: usize) -> usize
    requires { words_for capacity < 2 ^ 64 }
    ensures { result ≡ words_for capacity }
{
    WORDS * capacity
}

// Where a word lies. That a word is one of six is said again for the callers: they read it here, and not of the trait.
#[tactic(auto, unfolding(crate::specs::View::word_place, crate::specs::Counters::capacity_of))]
fn place_of<W: Word>(words: usize, w: W, i: usize) -> usize
    requires { i < capacity_of words }
    ensures { (result ≡ word_place words (W.place w) i) × (W.place w < 6) }
{
    WORDS * i + w.place()
}

#[tactic(auto, using(crate::proofs::Places::place_inside, crate::proofs::Places::got_word))]
pub(crate) fn word_at<W: Word>(ws: &[u32], w: W, i: usize) -> u32
    requires { i < capacity_of (length ws.now) }
    ensures { result ≡ word ws.now (W.place w) i }
{
    let at = place_of(ws.len(), w, i);
    ws[at]
}

#[tactic(auto, using(crate::proofs::Places::place_inside))]
pub(crate) fn put_word<W: Word>(ws: &mut [u32], w: W, i: usize, value: u32)
    requires { i < capacity_of (length ws.old) }
    ensures { Put ws.old ws.new (W.place w) i value }
{
    let at = place_of(ws.len(), w, i);
    ws[at] = value;
}
