// Answers as text.
ghost use Rattle.std.specs.Prelude.{Some};
ghost use Rattle.records.specs.Answers.{said};
ghost use Rattle.driving.specs.Answers.{told, text_of};

use records::Answer;
use std::fmt;

// An answer as it is printed: `ok`, `ok` and a value, `no` and a number.
#[derive(Clone, Copy)]
pub struct Printed(pub Answer);

impl fmt::Display for Printed {
    ghost output = { λ p. Some (text_of (told (said p.0))) };

    #[tactic(auto, unfolding(crate::specs::Answers::told))]
    fn fmt<W: fmt::Write>(&self, f: &mut fmt::Formatter<W>) -> fmt::Result {
        match self.0 {
            Ok(None) => write!(f, "ok"),
            Ok(Some(v)) => write!(f, "ok {v}"),
            Err(why) => {
                let number = u32::from(why);
                write!(f, "no {number}")
            }
        }
    }
}
