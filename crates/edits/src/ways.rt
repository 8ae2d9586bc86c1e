// How the ranges of a buffer merge, as the acts by places take it, and what the calls with a key go by.
ghost use Rattle.std.specs.Prelude.{◌≡◌};
ghost use Rattle.edits.specs.inner.Acts.{way_of, keyed_of};

use super::{Keyed, Way};
use lists::Buffer;
use records::Key;

#[inline(always)]
pub(crate) fn way_of(b: Buffer, merges: bool) -> Way
    ensures { result ≡ way_of b merges }
{
    Way {
        merges,
        level: b.level,
        wants: b.wants,
    }
}

#[inline(always)]
pub(crate) fn keyed_of(b: Buffer, merges: bool, key: Key) -> Keyed
    ensures { result ≡ keyed_of b merges key }
{
    Keyed {
        way: way_of(b, merges),
        len: b.len.0,
        key,
    }
}
