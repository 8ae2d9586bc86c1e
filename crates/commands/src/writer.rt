// A place in a lent slice, from which on bytes, numbers and words are written. Not by `fmt`: each byte is proved against specs/Lines,
// and so is a bound on the length, in a slice that is lent, with no heap; std's decimal is another definition.
ghost use Rattle.std.specs.Prelude.{◌≡◌, cond, [], ◌∷◌, ◌+◌, ◌≤◌, ◌<◌, length};
ghost use Rattle.commands.specs.{Lines.digit_of, Lines.decimal, Lines.signed, Lines.hex_digit, Lines.hex, inner.Writes.Puts, Texts.Wrote};

#[derive(Drop)]
pub(crate) struct Writer<'a> {
    out: &'a mut [u8],
    pub(crate) at: usize,
}

// The last decimal digit of n.
fn digit(n: usize) -> u8
    ensures { result ≡ digit_of n }
{
    b'0' + (n % 10) as u8
}

#[tactic(auto, unfolding(crate::specs::Lines::hex_digit))]
fn hex_digit(n: u8) -> u8
    requires { n < 16 }
    ensures { result ≡ hex_digit n }
{
    if n < 10 { b'0' + n } else { b'A' + (n - 10) }
}

// The digits of n from a place on, and the place behind them. Not a method: a writer that is lent has its fields in memory.
#[tactic(auto, using(crate::proofs::Writes::decimals))]
fn decimals(out: &mut [u8], at: usize, n: usize) -> usize
    requires { at + length (decimal n) ≤ length out.old }
    ensures { Wrote (decimal n) out.old at result out.new }
{
    if n < 10 {
        out[at] = digit(n);
        return at + 1;
    }
    let last = decimals(out, at, n / 10);
    out[last] = digit(n);
    last + 1
}

impl<'a> Writer<'a> {
    pub(crate) fn new(out: &'a mut [u8], at: usize) -> Writer<'a>
        ensures same { result.out.ghost_name ≡ out.entry.ghost_name }
        ensures now { result.out.now ≡ out.old }
        ensures place { result.at ≡ at }
    {
        Writer { out, at }
    }

    pub(crate) fn put(&mut self, b: u8)
        requires { self.old.at < length self.old.out.now }
        ensures { Puts (b ∷ []) self.old self.new }
    {
        self.out[self.at] = b;
        self.at += 1;
    }

    // Some bytes, one after the other.
    #[tactic(auto, using(crate::proofs::Writes::pasted))]
    pub(crate) fn put_all(&mut self, bytes: &[u8])
        requires { self.old.at + length bytes.now ≤ length self.old.out.now }
        ensures { Puts bytes.now self.old self.new }
    {
        let end = self.at + bytes.len();
        self.out[self.at..end].copy_from_slice(bytes);
        self.at = end;
    }

    // As specs/Lines defines it.
    #[tactic(auto, using(crate::proofs::Writes::then))]
    fn put_decimal(&mut self, n: usize)
        requires { self.old.at + length (decimal n) ≤ length self.old.out.now }
        ensures { Puts (decimal n) self.old self.new }
    {
        self.at = decimals(self.out, self.at, n);
    }

    // A word that stands for a signed number, as specs/Lines defines it. By `unsigned_abs`, or `wrapping_neg`, the check leaves the first goal open.
    #[tactic(auto, using(crate::proofs::Writes::signs), unfolding(crate::specs::Lines::signed))]
    fn put_signed(&mut self, w: u32)
        requires { self.old.at + 11 ≤ length self.old.out.now }
        ensures puts { Puts (signed w) self.old self.new }
        ensures upper_bound { self.new.at ≤ self.old.at + 11 }
    {
        let n = w as usize;
        if records::counters::is_negative(w) {
            self.put(b'-');
            return self.put_decimal(4294967296 - n);
        }
        self.put_decimal(n);
    }

    // A byte in two hexadecimal digits.
    pub(crate) fn put_hex(&mut self, b: u8)
        requires { self.old.at + 2 ≤ length self.old.out.now }
        ensures { Puts (hex b) self.old self.new }
    {
        self.put(hex_digit(b / 16));
        self.put(hex_digit(b % 16));
    }

    // The words of a line, each with the space before it. A count has twice the digits of a word, and a line's length is bounded by them.
    #[tactic(auto, using(crate::proofs::Writes::words))]
    pub(crate) fn put_count(&mut self, n: usize)
        requires { self.old.at + 21 ≤ length self.old.out.now }
        ensures puts { Puts (32 ∷ decimal n) self.old self.new }
        ensures upper_bound { self.new.at ≤ self.old.at + 21 }
    {
        self.put(b' ');
        self.put_decimal(n);
    }

    #[tactic(auto, using(crate::proofs::Writes::words))]
    pub(crate) fn put_word(&mut self, w: u32)
        requires { self.old.at + 11 ≤ length self.old.out.now }
        ensures puts { Puts (32 ∷ decimal w) self.old self.new }
        ensures upper_bound { self.new.at ≤ self.old.at + 11 }
    {
        self.put(b' ');
        self.put_decimal(w as usize);
    }

    #[tactic(auto, using(crate::proofs::Writes::words))]
    pub(crate) fn put_signed_word(&mut self, w: u32)
        requires { self.old.at + 12 ≤ length self.old.out.now }
        ensures puts { Puts (32 ∷ signed w) self.old self.new }
        ensures upper_bound { self.new.at ≤ self.old.at + 12 }
    {
        self.put(b' ');
        self.put_signed(w);
    }

    // A truth, as 1 or 0.
    #[tactic(auto, using(crate::proofs::Writes::words))]
    pub(crate) fn put_truth(&mut self, t: bool)
        requires { self.old.at + 2 ≤ length self.old.out.now }
        ensures puts { Puts (32 ∷ decimal (cond t 1 0)) self.old self.new }
        ensures upper_bound { self.new.at ≤ self.old.at + 2 }
    {
        self.put(b' ');
        self.put_decimal(usize::from(t));
    }
}
