// The numbers of refusals.
ghost use Rattle.std.specs.Prelude.{◌≡◌};
ghost use Rattle.records.specs.Answers.{refusal_number};

use super::Refusal;

impl From<Refusal> for u32 {
    #[tactic(auto, unfolding(crate::specs::Answers::refusal_number))]
    fn from(why: Refusal) -> u32
        ensures { result ≡ refusal_number why }
    {
        why as u32
    }
}
