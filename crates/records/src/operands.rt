// A word of a call as a place, in the input or in *done*, and as a bound.
ghost use Rattle.std.specs.Prelude.{◌≡◌, Some, None};

use super::{DonePlace, InputPlace};

impl From<u32> for InputPlace {
    ghost from_gives = { λ word place. place ≡ record { 0 = word } };

    fn from(word: u32) -> InputPlace {
        InputPlace(word as usize)
    }
}

impl From<u32> for DonePlace {
    ghost from_gives = { λ word place. place ≡ record { 0 = word } };

    fn from(word: u32) -> DonePlace {
        DonePlace(word as usize)
    }
}

// A word of a call as a bound, in the input or in *done*: the largest word is an open one.
pub fn bound<P: From<u32>>(word: u32) -> Option<P>
    ensures open { word ≡ 4294967295 → result ≡ None }
    ensures place { (word ≡ 4294967295 → ⊥) → (place : P) × P.from_gives word place × (result ≡ Some place) }
{
    if word == u32::MAX {
        None
    } else {
        Some(P::from(word))
    }
}
