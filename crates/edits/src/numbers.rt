// Glyph numbers that are given: as numbers, or as the words of a string of bytes.
#![tactic(auto, using(crate::proofs::GivenLaws::giving))]

ghost use Rattle.std.specs.Prelude.{◌≡◌, ℕ, List, ◌^◌, ◌<◌, ◌≤◌, length, slice_index};
ghost use Rattle.records.specs.Bytes.{words_of};

pub(crate) trait Given: Copy {
    ghost numbers: { Self → List ℕ };

    // How many there are.
    fn count(self) -> usize
        ensures value { result ≡ length (numbers self) }
        ensures upper_bound { result ≤ 2 ^ 62 };

    // The i-th of them.
    fn number_at(self, i: usize) -> u32
        requires { i < length (numbers self) }
        ensures { result ≡ slice_index (numbers self) i };
}

impl Given for &[u32] {
    ghost numbers = { λ v. v.now };

    #[inline(always)]
    fn count(self) -> usize {
        self.len()
    }

    #[inline(always)]
    fn number_at(self, i: usize) -> u32 {
        self[i]
    }
}

impl Given for &[u8] {
    ghost numbers = { λ v. words_of v.now };

    #[inline(always)]
    fn count(self) -> usize {
        self.len() / 4
    }

    #[inline(always)]
    fn number_at(self, i: usize) -> u32 {
        records::bytes::word(self, 4 * i)
    }
}
